// Floats as document 01 has them: bits, sign, order, the casts to cells, and the square root.
//
// Every public function is total: any float, NaN and the infinities among them, has an answer.
#![tactic(auto)]

mod bits;
mod cells;
mod order;
mod root;
mod sign;

pub use bits::{bits_of, of_bits};
pub use cells::{cell, cell_count};
pub use order::{clamp, max, min};
pub use root::sqrt;
pub use sign::{abs, is_finite, nan, signum};
