// The checks of refused calls that several entries share. Each answers for any arguments, and its
// laws, in proofs/, give a caller the facts of a check that passed.
#![tactic(auto)]

pub mod limits;
mod listed;
mod ranges;
mod refusal;
mod tables;

pub use listed::Listed;
pub use ranges::{axis, bounds, coordinate, coordinates, floats_within, point, within};
pub use refusal::{Refusal, refusal_number, require};
pub use tables::{
    at_most, holds, links_ascend, numbers_below, ranges_contiguous, starts_monotone, wide,
};
