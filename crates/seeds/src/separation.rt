// How far apart surfels lie.
ghost use Rattle.std.specs.Prelude.{◌≡◌};
ghost use Rattle.seeds.specs.Seeds.{spacing_of};

use crate::Spacing;
use vector::Vec3;

// The spacing of so many surfels in the box from lo to hi.
#[tactic(auto, unfolding(crate::specs::Seeds::spacing_of))]
pub fn spacing_of(lo: Vec3, hi: Vec3, target: f32) -> Spacing
    ensures { result ≡ spacing_of lo hi target }
{
    let diag = hi.minus(lo).length();
    Spacing {
        lo,
        hi,
        diag,
        d_min: float::max(diag / float::sqrt(target), 1e-4),
    }
}
