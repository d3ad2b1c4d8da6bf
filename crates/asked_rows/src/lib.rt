// Rows of what is stored, and their answer as words.
#![tactic(auto)]

mod ask;
mod words;

pub use ask::rows;
use vector::Vec3;

// How many surfels and clusters a call for rows is told of, and the bounds.
#[derive(Clone, Copy)]
pub struct Told {
    pub n: usize,
    pub nc: usize,
    pub lo: Vec3,
    pub hi: Vec3,
}
