// A float and the word of its bits, with one pattern for NaN.
//
// Kept: the library's `from_bits` and `to_bits` require that no NaN is given, and no caller owes that here.
ghost use Rattle.std.specs.Prelude.{◌≡◌, from_bits, to_bits};
ghost use Rattle.std.specs.Float.{binary32};

use crate::sign;

// The float whose bits w has; every pattern of a NaN is NaN.
pub fn of_bits(w: u32) -> f32
    ensures { result ≡ from_bits binary32 w }
{
    if 0x7f80_0000 < w & 0x7fff_ffff {
        return sign::nan();
    }
    f32::from_bits(w)
}

// The bits of x; 7FC00000 for any NaN.
pub fn bits_of(x: f32) -> u32
    ensures { result ≡ to_bits binary32 x }
{
    if x.is_nan() {
        return 0x7fc0_0000;
    }
    f32::to_bits(x)
}
