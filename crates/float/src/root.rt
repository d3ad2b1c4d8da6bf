// The square root, rounded to the nearest float.
ghost use Rattle.std.specs.Prelude.{◌≡◌, ◌%◌, ◌^◌, ◌<◌, T, from_bits};
ghost use Rattle.std.specs.Float.{binary32};
ghost use Rattle.std.specs.Float.Ieee.Positive.{positive as Positive·positive};
ghost use Rattle.float.specs.Root.{Root, square_root, NearestRoot};
ghost use Rattle.float.specs.RootSteps.{Between, Scaled, Rounded};

use crate::sign;

// The square root: the float nearest the exact root, ties to even. -0 gives -0, a number below 0 NaN.
// Kept: not the library's, since document 01 has the root over scaled whole numbers.
pub fn sqrt(x: f32) -> f32
    ensures value { result ≡ square_root x }
    ensures nearest { T (Positive·positive x) → NearestRoot x result }
{
    if x.is_nan() {
        return x;
    }
    let b = f32::to_bits(x);
    if b & 0x7fff_ffff == 0 {
        return x;
    }
    if b >> 31 != 0 {
        return sign::nan();
    }
    if b == 0x7f80_0000 {
        return x;
    }
    f32::from_bits(positive(b))
}

// The bit pattern of the root of the positive finite number with the pattern b.
fn positive(b: u32) -> u32
    requires { (0 < b) × (b < 0x7f80_0000) }
    ensures { (result < 0x7f80_0000) × (from_bits binary32 result ≡ square_root (from_bits binary32 b)) }
{
    let field = b >> 23;
    let fraction = b & 0x7f_ffff;
    if field == 0 {
        let s = u32::leading_zeros(fraction) - 8;
        rounded(fraction << s, 128 - s)
    } else {
        rounded(fraction | 0x80_0000, field + 127)
    }
}

// The bit pattern of the root of sig * 2^(e - 277), for a significand of 24 bits. Twice the root
// of sig * 2^(23 + e % 2) is taken as a whole number of 25 bits, and its last bit rounds.
fn rounded(sig: u32, e: u32) -> u32
    requires { Scaled sig e }
    ensures { Rounded sig e result }
{
    let wide = (sig as u64) << (25 + (e & 1));
    let q = (whole_root(wide, 0, 25) + 1) >> 1;
    ((e >> 1) << 23) | fraction(q)
}

// The 23 bits of a significand below its leading one.
fn fraction(q: u64) -> u32
    ensures { result ≡ q % 2 ^ 23 }
{
    (q & 0x7f_ffff) as u32
}

// The whole-number root of n, bit by bit: r has its upper bits, and `left` bits are left to find.
// Kept: not the library's `isqrt`, since document 01 has the root by recursion on the bits that are left.
fn whole_root(n: u64, r: u64, left: u32) -> u64
    requires { Between n r left }
    ensures { Root n result }
{
    if left == 0 {
        r
    } else {
        let t = r + (1u64 << (left - 1));
        if t * t <= n {
            whole_root(n, t, left - 1)
        } else {
            whole_root(n, r, left - 1)
        }
    }
}
