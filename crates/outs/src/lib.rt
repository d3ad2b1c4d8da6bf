// What the entries answer, told as a C function tells it: the number of a refusal is returned, and else 0
// with the answer's own numbers written through references.
//
// No public function here asks anything of its caller.
// Kept: an answer's numbers are written through a reference each, since C lends them so.
// Kept: a match in each function. Handed as closures to one, the same takes over three times as long to check.
#![tactic(auto)]

mod counts;
mod reading;
mod rows;
mod scenes;
mod solves;
mod surfels;

pub use counts::tell_count;
pub use reading::tell_head;
pub use rows::{tell_built, tell_clustered};
pub use scenes::{tell_closure, tell_nearest, tell_normal, tell_shadow, tell_traced};
pub use solves::tell_solved;
pub use surfels::{tell_dims, tell_reading};
