// A u32 as text.
//
// Kept: digits by hand, since `Display` writes to what may fail or to a `String` on the heap, and
// `itoa` would be one more crate whose statements are trusted.
ghost use Rattle.std.specs.Prelude.{◌≤◌, ◌<◌, ◌≡◌, ◌++◌, length, drop};
ghost use Rattle.text.specs.Digits.{last_digits, hex_digits, decimal_digits};
ghost use Rattle.text.specs.Digits.{glyph as Digits·glyph};

use std::marker::Model;

// A number's decimal digits: up to ten bytes.
// Kept: an array and a count, since the kit's list of bounded length is not Copy.
#[derive(Clone, Copy)]
pub struct Numeral {
    digits: [u8; 10],
    count: usize,
}

// The bytes after the digits are zero, so that two numerals of one number are one value.
impl Model for Numeral {
    ghost use Rattle.std.specs.Prelude.{ℕ, List, ◌++◌, ◌-◌, length, take, replicate};
    ghost use Rattle.text.specs.Held.{Held};

    ghost Value = { List ℕ };

    ghost view = { λ l. take l.count l.digits };

    ghost invariant = { λ l. Held 10 l.digits l.count };

    ghost inverse = { λ text. record { digits = text ++ replicate (10 - length text) 0; count = length text } };

    ghost inverse_ok = { λ l h i. record { digits = h.zeros i; count = h.counted i } };
}

impl Numeral {
    ghost use Rattle.std.specs.Prelude.{◌≡◌, ◌≤◌, length};

    // The digits.
    pub fn as_slice(&self) -> &[u8]
        ensures text { result.now ≡ self.now }
        ensures fits { length result.now ≤ 10 }
    {
        &self.digits[..self.count]
    }
}

// The eight hexadecimal digits of w in upper case, the most significant first.
pub fn hex(w: u32) -> [u8; 8]
    ensures { result ≡ hex_digits w }
{
    let mut out = [0u8; 8];
    spell(w, 16, 8, &mut out);
    out
}

// The decimal digits of n, the most significant first, with no zero in front; 0 is one digit.
pub fn decimal(n: u32) -> Numeral
    ensures { result ≡ decimal_digits n }
{
    let count = places(n);
    let mut digits = [0u8; 10];
    spell(n, 10, count, &mut digits);
    Numeral { digits, count }
}

// How many decimal digits n takes.
fn places(n: u32) -> usize
    ensures { result ≡ length (decimal_digits n) }
{
    match n.checked_ilog10() {
        Some(power) => power as usize + 1,
        None => 1,
    }
}

// Puts the last k digits of n in base at the start of out.
// Kept: places by their numbers. Tried with `iter_mut().rev()`: its invariant has no name for what
// out holds, so what the function ensures stays open.
fn spell(n: u32, base: u32, k: usize, out: &mut [u8])
    requires { (0 < base) × (base ≤ 16) × (k ≤ length out.old) }
    ensures { out.new ≡ last_digits base k n ++ drop k out.old }
{
    let mut rest = n;
    for i in (0..k).rev() {
        out[i] = glyph(rest % base);
        rest /= base;
    }
}

// The character of a digit.
fn glyph(d: u32) -> u8
    requires { d < 16 }
    ensures { result ≡ Digits·glyph d }
{
    if d < 10 {
        b'0' + d as u8
    } else {
        b'A' + (d - 10) as u8
    }
}
