// Where a seed comes to lie.
ghost use Rattle.std.specs.Prelude.{◌≡◌};
ghost use Rattle.seeds.specs.Seeds.{outside, landed};

use crate::Spacing;
use crate::halton::seed;
use field::project;
use tables::Scene;
use vector::Vec3;

// The point of the surface that seed number i is moved to, or none where it reaches no surface or
// leaves the box.
#[tactic(auto, unfolding(crate::specs::Seeds::landed, crate::specs::Seeds::bounded))]
pub fn landed(scene: &Scene, s: Spacing, i: u32) -> Option<Vec3>
    ensures { result ≡ landed scene.now s i }
{
    let from = s.lo.plus(s.hi.minus(s.lo).times(seed(i)));
    let p = project(scene, from, s.d_min * 0.02, s.diag)?;
    if outside(s.lo, s.hi, p) {
        None
    } else {
        Some(p)
    }
}

// Whether a component of p is below lo or above hi. A NaN is neither.
#[tactic(auto, unfolding(crate::specs::Seeds::outside))]
fn outside(lo: Vec3, hi: Vec3, p: Vec3) -> bool
    ensures { result ≡ outside lo hi p }
{
    (p.x < lo.x) | (p.y < lo.y) | (p.z < lo.z) | (p.x > hi.x) | (p.y > hi.y) | (p.z > hi.z)
}
