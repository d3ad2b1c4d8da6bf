// The greater, the lesser, and a number held within two ends.
ghost use Rattle.std.specs.Prelude.{◌≡◌};
ghost use Rattle.float.specs.Order.{greater, lesser, clamp};

// The greater of two; where one is NaN, the other.
// Kept: the library's max leaves open which of two equal numbers it gives, and so a zero's sign.
#[tactic(auto, unfolding(crate::specs::Order::greater))]
pub fn max(a: f32, b: f32) -> f32
    ensures { result ≡ greater a b }
{
    if a.is_nan() {
        b
    } else if a < b {
        b
    } else {
        a
    }
}

// The lesser of two; where one is NaN, the other.
// Kept: the library's min leaves that open as well.
#[tactic(auto, unfolding(crate::specs::Order::lesser))]
pub fn min(a: f32, b: f32) -> f32
    ensures { result ≡ lesser a b }
{
    if a.is_nan() {
        b
    } else if b < a {
        b
    } else {
        a
    }
}

// lo where x is below it, hi where x is above it, else x: a NaN goes through, and so does -0.
// Kept: the library's clamp requires that lo is not above hi, and nothing is asked of a caller here.
#[tactic(auto, unfolding(crate::specs::Order::clamp))]
pub fn clamp(x: f32, lo: f32, hi: f32) -> f32
    ensures { result ≡ clamp x lo hi }
{
    if x < lo {
        lo
    } else if hi < x {
        hi
    } else {
        x
    }
}
