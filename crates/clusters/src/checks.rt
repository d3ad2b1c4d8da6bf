// What refuses to make clusters.
ghost use Rattle.std.specs.Prelude.{◌≡◌};
ghost use Rattle.clusters.specs.Checks.{voxels_fit, surfels_hold, floats_fit, check};

use crate::Cut;
use crate::columns::Lengths;
use crate::surfels::Surfels;
use accept::limits::{MAX_AMOUNT, MAX_RESOLUTION, MAX_SURFELS, MIN_RESOLUTION};
use accept::{Refusal, at_most, bounds, coordinates, floats_within, holds, require};

// What refuses to make clusters of surfels, if anything does.
#[tactic(auto, unfolding(crate::specs::Checks::check, accept::specs::Refusal::checked))]
pub fn check(surfels: &Surfels, cut: Cut, lengths: Lengths) -> Result<(), Refusal>
    ensures { result ≡ check surfels.now cut.lo cut.hi cut.res lengths }
{
    require(at_most(surfels.n, MAX_SURFELS), Refusal::Count)?;
    require(voxels_fit(cut), Refusal::Range)?;
    require(
        surfels_hold(surfels) & lengths.hold(surfels.n),
        Refusal::Length,
    )?;
    require(floats_fit(surfels), Refusal::Float)
}

// Whether the box and the resolution are in their range.
#[tactic(auto, unfolding(crate::specs::Checks::voxels_fit))]
fn voxels_fit(cut: Cut) -> bool
    ensures { result ≡ voxels_fit cut.lo cut.hi cut.res }
{
    bounds(cut.lo, cut.hi) & (MIN_RESOLUTION <= cut.res) & (cut.res <= MAX_RESOLUTION)
}

// Whether the columns of the surfels are long enough.
#[tactic(auto, unfolding(crate::specs::Checks::surfels_hold))]
fn surfels_hold(s: &Surfels) -> bool
    ensures { result ≡ surfels_hold s.now }
{
    holds(s.p.len(), s.n, 3) & holds(s.normals.len(), s.n, 3) & (s.n <= s.area.len())
}

// Whether places, normals and areas are in their range.
#[tactic(auto, unfolding(crate::specs::Checks::floats_fit))]
fn floats_fit(s: &Surfels) -> bool
    ensures { result ≡ floats_fit s.now }
{
    coordinates(s.p, s.n)
        & coordinates(s.normals, s.n)
        & floats_within(s.area, s.n, 1, 0.0, MAX_AMOUNT)
}
