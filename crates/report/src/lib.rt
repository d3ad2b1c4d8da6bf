// What `roomlight` prints of a room file: the light after the solve at each probe, or the number
// that refuses the file.
//
// The entry answers `Length` where the text is too short; the number that refuses a file is in the
// text. No public function has a `requires`.
#![tactic(auto)]

mod accepted;
mod entries;
mod probing;
mod solving;
mod writing;

pub use entries::{MAX_REPORT, room_report};
