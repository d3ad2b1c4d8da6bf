// The public entries of the reading: each is refused for document 01's reasons and then writes
// nothing, or answers the call.
ghost use Rattle.std.specs.Prelude.{◌≡◌};
ghost use Rattle.surfel.specs.Answers.{gather_answer, gather_all_answer};

use crate::checks::{check, radius_within};
use crate::{Probes, Reading, Surfels};
use accept::{Refusal, point};
use grid::{Grid, Own};
use vector::Vec3;

// The light at the point `at` with this normal.
pub fn gather(
    grid: &Grid,
    surfels: &Surfels,
    at: Vec3,
    normal: Vec3,
    radius: f32,
) -> Result<Reading, Refusal>
    ensures { result ≡ gather_answer grid.now surfels.now at normal radius }
{
    let own = Own {
        ranged: radius_within(radius),
        floats: point(at) & point(normal),
        ..Own::PASSED
    };
    let gridded = check(grid, surfels, own)?;
    Ok(gridded.read(at, normal, radius))
}

// The light at each of many probes: seen becomes 1 where it is seen and 0 where it is not, and light
// the light, zero where it is unseen.
// Kept: two slices of numbers, since C lends them.
pub fn gather_all(
    grid: &Grid,
    surfels: &Surfels,
    probes: &Probes,
    seen: &mut [u32],
    light: &mut [f32],
) -> Result<(), Refusal>
    ensures { (result, seen.new, light.new) ≡ gather_all_answer grid.now surfels.now probes.now seen.old light.old }
{
    let own = probes.own(seen.len(), light.len());
    let gridded = check(grid, surfels, own)?;
    gridded.read_each(probes, seen, light);
    Ok(())
}
