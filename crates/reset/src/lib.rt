// The light of surfels before the first bounce.
//
// No public function has a `requires`.
#![tactic(auto)]

mod resetting;

pub use resetting::{check, reset};
