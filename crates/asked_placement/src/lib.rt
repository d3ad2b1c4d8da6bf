// Surfels placed in a stored scene, and the answer as words.
#![tactic(auto)]

mod ask;

pub use ask::generate;
use vector::Vec3;

// How many materials a call for placement is told of, how many surfels are wanted, and the bounds.
#[derive(Clone, Copy)]
pub struct Told {
    pub mats: usize,
    pub target: usize,
    pub lo: Vec3,
    pub hi: Vec3,
}
