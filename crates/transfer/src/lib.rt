// A room as a solve is lent it, surfels, clusters and rows, and whether it is accepted.
//
// No public function has a `requires`.
#![tactic(auto)]

mod checks;
mod lent;

pub use checks::check;
pub use lent::{Clusters, Room, Rows};
