// NaN, the sign of a float, and whether it is a number.
ghost use Rattle.std.specs.Prelude.{◌≡◌};
ghost use Rattle.std.specs.Float.{nan};
ghost use Rattle.std.specs.Float.Ieee.Scale.{finite};
ghost use Rattle.float.specs.Sign.{abs, signum};

// NaN.
pub fn nan() -> f32
    ensures { result ≡ nan }
{
    f32::NAN
}

// The number without its sign: of a zero +0, of NaN NaN.
pub fn abs(x: f32) -> f32
    ensures { result ≡ abs x }
{
    x.abs()
}

// 1 or -1, as the sign of x says, also of a zero; of NaN NaN.
pub fn signum(x: f32) -> f32
    ensures { result ≡ signum x }
{
    x.signum()
}

// Whether x is a number: neither NaN nor an infinity.
pub fn is_finite(x: f32) -> bool
    ensures { result ≡ finite x }
{
    x.is_finite()
}
