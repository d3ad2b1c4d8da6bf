// Whether rows can be made, and what refuses the call.
ghost use Rattle.std.specs.Prelude.{◌≡◌};
ghost use Rattle.formfactor.specs.Lent.{diagonal, setting_with};
ghost use Rattle.formfactor.specs.Checks.{surfels_hold, emitters_hold, surfels_within, emitters_within, check};

use crate::{Emitters, Surfels};
use accept::limits::{MAX_AMOUNT, MAX_CLUSTER_AREA, MAX_CLUSTERS, MAX_SURFELS};
use accept::{Refusal, at_most, bounds, coordinates, floats_within, holds, require};
use tables::Scene;
use vector::Vec3;

// What refuses to make rows of these surfels and clusters in slices of these lengths.
#[tactic(auto, unfolding(crate::specs::Checks::check, accept::specs::Refusal::checked))]
pub fn check(
    scene: &Scene,
    lo: Vec3,
    hi: Vec3,
    surfels: &Surfels,
    emitters: &Emitters,
    starts: usize,
    link: usize,
    weight: usize,
) -> Result<(), Refusal>
    ensures { result ≡ check lo hi (setting_with scene.now (diagonal lo hi) surfels.now emitters.now) starts link weight }
{
    let few = at_most(surfels.n, MAX_SURFELS)
        & at_most(emitters.nc, MAX_CLUSTERS)
        & scene.counts_within();
    require(few, Refusal::Count)?;
    require(bounds(lo, hi), Refusal::Range)?;
    let lent = scene.tables_hold() & surfels.hold(starts) & emitters.hold(link, weight);
    require(lent, Refusal::Length)?;
    let ranged = scene.shapes_within() & surfels.within() & emitters.within();
    require(ranged, Refusal::Float)?;
    require(scene.parts_fit(), Refusal::Scene)
}

impl Surfels<'_> {
    // Whether the columns and so many starts are long enough.
    #[tactic(auto, unfolding(crate::specs::Checks::surfels_hold))]
    fn hold(&self, starts: usize) -> bool
        ensures { result ≡ surfels_hold self.now.n self.now.p self.now.normals starts }
    {
        holds(self.p.len(), self.n, 3) & holds(self.normals.len(), self.n, 3) & (self.n < starts)
    }

    // Whether the places and normals are in range.
    #[tactic(auto, unfolding(crate::specs::Checks::surfels_within))]
    fn within(&self) -> bool
        ensures { result ≡ surfels_within self.now.n self.now.p self.now.normals }
    {
        coordinates(self.p, self.n) & coordinates(self.normals, self.n)
    }
}

impl Emitters<'_> {
    // Whether the columns are long enough, and scratch of these lengths.
    #[tactic(auto, unfolding(crate::specs::Checks::emitters_hold))]
    fn hold(&self, link: usize, weight: usize) -> bool
        ensures { result ≡ emitters_hold self.now link weight }
    {
        holds(self.p.len(), self.nc, 3)
            & holds(self.n.len(), self.nc, 3)
            & (self.nc <= self.area.len())
            & (self.nc <= self.radius.len())
            & (self.nc <= link)
            & (self.nc <= weight)
    }

    // Whether the places, normals, areas and radii are in range.
    #[tactic(auto, unfolding(crate::specs::Checks::emitters_within))]
    fn within(&self) -> bool
        ensures { result ≡ emitters_within self.now }
    {
        coordinates(self.p, self.nc)
            & coordinates(self.n, self.nc)
            & floats_within(self.area, self.nc, 1, 0.0, MAX_CLUSTER_AREA)
            & floats_within(self.radius, self.nc, 1, 0.0, MAX_AMOUNT)
    }
}
