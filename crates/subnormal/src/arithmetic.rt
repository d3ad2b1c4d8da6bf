// The product and the quotient.
ghost use Rattle.std.specs.Prelude.{◌≡◌, ◌^◌, ◌<◌};
ghost use Rattle.float.specs.Arithmetic.{◌*f◌, ◌/f◌};
ghost use Rattle.subnormal.specs.Packing.{halves};

use crate::packing::packed;
use crate::parts::{exponent, significand};

// x times y. Where both are positive and the product is small, whole numbers make it: any that is
// subnormal, or has a subnormal factor and another below 2^23.
pub fn product(x: f32, y: f32) -> f32
    ensures { result ≡ x *f y }
{
    if !((0.0 < x) & (0.0 < y)) {
        return beside_zero(x, y);
    }
    let a = x.to_bits();
    let b = y.to_bits();
    let e = exponent(a) + exponent(b);
    if 150 < e {
        return x * y;
    }
    f32::from_bits(packed(2 * (significand(a) * significand(b)), 216 - e))
}

// x times y. Where one is a zero and the other small, it is that zero.
fn beside_zero(x: f32, y: f32) -> f32
    ensures { result ≡ x *f y }
{
    if (y == 0.0) & (0.0 < x) & (x < 1.0) {
        return y;
    }
    if (x == 0.0) & (0.0 < y) & (y < 1.0) {
        return x;
    }
    x * y
}

// x divided by y. Where both are positive, y is not subnormal and the quotient is small, whole numbers
// make it: any that is subnormal, or of a subnormal x and a y from 2^-68 on.
pub fn quotient(x: f32, y: f32) -> f32
    ensures { result ≡ x /f y }
{
    if !((0.0 < x) & (0.0 < y)) {
        return x / y;
    }
    let a = x.to_bits();
    let b = y.to_bits();
    let m = significand(a);
    let up = m.leading_zeros() - 40;
    let from = exponent(a) + 59;
    let to = exponent(b) + up;
    if (b < 0x80_0000) | (0x7f7f_ffff < b) | (to < from) {
        return x / y;
    }
    f32::from_bits(packed(divided(m << (up + 25), significand(b)), to - from))
}

// Twice n / d, and 1 more where a remainder is left.
fn divided(n: u64, d: u64) -> u64
    requires d_nonzero { 0 < d }
    requires n_bound { n < 2 ^ 62 }
    ensures { result ≡ halves n d }
{
    let q = n / d;
    if q * d == n { 2 * q } else { 2 * q + 1 }
}
