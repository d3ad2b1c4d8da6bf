// The parts of a positive float: it is significand * 2^(exponent - 1) smallest values.
ghost use Rattle.std.specs.Prelude.{◌≡◌};
ghost use Rattle.subnormal.specs.Parts.{significand_of, exponent_of};

// The significand of the float with the pattern b.
pub fn significand(b: u32) -> u64
    ensures { result ≡ significand_of b }
{
    if b < 0x80_0000 {
        b as u64
    } else {
        ((b & 0x7f_ffff) | 0x80_0000) as u64
    }
}

// Its exponent, which counts from 1.
pub fn exponent(b: u32) -> u32
    ensures { result ≡ exponent_of b }
{
    if b < 0x80_0000 { 1 } else { b >> 23 }
}
