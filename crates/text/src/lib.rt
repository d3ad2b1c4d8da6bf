// Numbers as text, in ASCII: hexadecimal words read and written in upper case, decimal numbers, and
// bytes stored in a line.
//
// No public function has a `requires`: a text that is too short holds no word, and a byte that would
// lie past the end of a line is left out.
#![tactic(auto)]

mod line;
mod number;
mod reading;
#[cfg(test)]
mod tests;

pub use line::put;
pub use number::{Numeral, decimal, hex};
pub use reading::{leading_word, word};
