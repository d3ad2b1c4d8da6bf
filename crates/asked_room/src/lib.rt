// The solve and the reset of a stored room, and their answers as words.
#![tactic(auto)]

mod ask;
mod words;

pub use ask::{reset, reset_records, solve};

// How many surfels, clusters, members and links a solve is told of, and the limit of its bounces.
#[derive(Clone, Copy)]
pub struct Counts {
    pub n: usize,
    pub nc: usize,
    pub members: usize,
    pub links: usize,
    pub limit: usize,
}

// How many places of each list a reset is lent.
#[derive(Clone, Copy)]
pub struct Lengths {
    pub light: usize,
    pub direct: usize,
    pub irr: usize,
    pub rad: usize,
}
