// A line put together from left to right.
use std::marker::Model;

// A line of text: up to 64 bytes, its newline among them.
// Kept: an array and a count, since the kit's list of bounded length is not Copy.
#[derive(Clone, Copy)]
pub struct Line {
    bytes: [u8; 64],
    count: usize,
}

// The bytes after the line's are zero, so that two lines of one text are one value.
impl Model for Line {
    ghost use Rattle.std.specs.Prelude.{ℕ, List, ◌++◌, ◌-◌, length, take, replicate};
    ghost use Rattle.text.specs.Held.{Held};

    ghost Value = { List ℕ };

    ghost view = { λ l. take l.count l.bytes };

    ghost invariant = { λ l. Held 64 l.bytes l.count };

    ghost inverse = { λ text. record { bytes = text ++ replicate (64 - length text) 0; count = length text } };

    ghost inverse_ok = { λ l h i. record { bytes = h.zeros i; count = h.counted i } };
}

impl Line {
    ghost use Rattle.std.specs.Prelude.{◌≡◌, ◌+◌, ◌≤◌, [], ◌++◌, length};
    ghost use Rattle.text.specs.Digits.{decimal_digits};
    ghost use Rattle.lines.specs.Lines.{float_digits};

    // The bytes of the line.
    pub fn as_slice(&self) -> &[u8]
        ensures text { result.now ≡ self.now }
        ensures fits { length result.now ≤ 64 }
    {
        &self.bytes[..self.count]
    }

    // An empty line.
    pub(crate) fn empty() -> Line
        ensures { result ≡ [] }
    {
        Line {
            bytes: [0; 64],
            count: 0,
        }
    }

    // This line and the text s.
    pub(crate) fn with(self, s: &[u8]) -> Line
        requires { length self + length s.now ≤ 64 }
        ensures { result ≡ self ++ s.now }
    {
        let mut bytes = self.bytes;
        let count = self.count;
        text::put(&mut bytes, count, s);
        Line {
            bytes,
            count: count + s.len(),
        }
    }

    // This line and the decimal digits of n.
    pub(crate) fn with_decimal(self, n: u32) -> Line
        requires { length self + 10 ≤ 64 }
        ensures { result ≡ self ++ decimal_digits n }
    {
        let digits = text::decimal(n);
        self.with(digits.as_slice())
    }

    // This line and the eight hexadecimal digits of the bits of x.
    pub(crate) fn with_float(self, x: f32) -> Line
        requires { length self + 8 ≤ 64 }
        ensures { result ≡ self ++ float_digits x }
    {
        let digits = text::hex(float::bits_of(x));
        self.with(&digits)
    }
}
