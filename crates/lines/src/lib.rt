// The lines of a report, each made by value.
//
// No public function has a `requires`.
#![tactic(auto)]

mod joining;
mod made;

pub use joining::Line;
pub use made::{bounces, counts, probe, probed, refused};
