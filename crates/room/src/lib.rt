// A room file read into lent columns.
//
// The entry answers what stands beside the columns, or why it refuses the file, and then writes
// nothing. No public function has a `requires`.
#![tactic(auto)]

mod entries;
mod lengths;

pub use entries::room_read;
use file::{Counts, ProbeBox};

// What stands in a file beside its columns: the counts and the limit of bounces, and the box of the
// grid, the side of a cell and the radius of a reading.
#[derive(Clone, Copy)]
pub struct Head {
    pub counts: Counts,
    pub bounds: ProbeBox,
}
