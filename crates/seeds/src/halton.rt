// Points of the Halton sequence.
ghost use Rattle.std.specs.Prelude.{◌≡◌, ◌≤◌, ◌^◌};
ghost use Rattle.vector.specs.Halton.{radical_inverse};
ghost use Rattle.seeds.specs.Seeds.{seed};

use vector::Vec3;

// The point number i of the Halton sequence in bases 2, 3 and 5.
#[tactic(auto, unfolding(crate::specs::Seeds::seed))]
pub fn seed(i: u32) -> Vec3
    ensures { result ≡ seed i }
{
    Vec3 {
        x: halton(i, 2),
        y: halton(i, 3),
        z: halton(i, 5),
    }
}

// The digits of i in a base, mirrored at the point.
// Kept: a turn takes one digit off, and no range says how many there are.
fn halton(i: u32, base: u32) -> f32
    requires le_base { 2 ≤ base }
    requires base_bound { base ≤ 2 ^ 24 }
    ensures { result ≡ radical_inverse base i }
{
    let mut n = i;
    let mut f = 1.0f32;
    let mut r = 0.0f32;
    let inv = 1.0 / base as f32;
    while n > 0 {
        f *= inv;
        r += f * (n % base) as f32;
        n /= base;
    }
    r
}
