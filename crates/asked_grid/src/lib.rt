// Questions about a stored grid, and their answers as words.
#![tactic(auto)]

mod ask;
mod words;

pub use ask::{gather, gather_all, grid_build, near};
pub use words::{built, read};
