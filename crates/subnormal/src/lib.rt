// Products and quotients of floats and of vectors, made of whole numbers where they are small.
//
// A product or a quotient with a subnormal operand or result takes some processors sixty times as
// long as another. Here those that a bounce makes of faint light take some nanoseconds, with the same
// bits. Others are left to the processor: of floats below 0, of a subnormal divisor, of a subnormal by
// a divisor under 2^-68, and of a subnormal times 2^23 or more. Every public function is total.
#![tactic(auto)]

mod arithmetic;
mod packing;
mod parts;
mod vectors;

pub use arithmetic::{product, quotient};
pub use vectors::{over, scaled, times};
