// Whether surfels can be placed, and what refuses the call.
ghost use Rattle.std.specs.Prelude.{◌≡◌, ◌≤◌};
ghost use Rattle.accept.specs.Limits.{max_surfels};
ghost use Rattle.placement.specs.Lent.{columns_lent};
ghost use Rattle.placement.specs.Checks.{spacing_for, few_enough, columns_hold, check};

use crate::Request;
use crate::layout::cells;
use accept::limits::{MAX_ALBEDO, MAX_ENTRIES, MAX_SURFELS};
use accept::{Refusal, at_most, bounds, floats_within, holds, require};
use seeds::{Spacing, spacing_of};

impl Request<'_> {
    // What refuses to place the surfels in these columns. The scratch is given by its lengths.
    #[tactic(auto, unfolding(crate::specs::Checks::check, crate::specs::Checks::head_need, accept::specs::Refusal::checked))]
    pub(crate) fn check(
        &self,
        p: &[f32],
        n: &[f32],
        albedo: &[f32],
        area: &[f32],
        direct: &[f32],
        irr: &[f32],
        rad: &[f32],
        head: usize,
        next: usize,
    ) -> Result<(), Refusal>
        ensures { result ≡ check self.now (columns_lent p n albedo area direct irr rad) head next }
    {
        require(self.few_enough(), Refusal::Count)?;
        require(bounds(self.lo, self.hi), Refusal::Range)?;
        let lent = self.scene.tables_hold()
            & holds(self.materials.len(), self.mats, 4)
            & columns_hold(self.target, p, n, albedo, area, direct, irr, rad)
            & (cells(self.spacing()) <= head)
            & (self.target <= next);
        require(lent, Refusal::Length)?;
        let ranged = self.scene.shapes_within()
            & floats_within(self.materials, self.mats, 4, 0.0, MAX_ALBEDO);
        require(ranged, Refusal::Float)?;
        require(self.scene.parts_fit(), Refusal::Scene)
    }

    // Whether the counts are within their limits.
    #[tactic(auto, unfolding(crate::specs::Checks::few_enough))]
    fn few_enough(&self) -> bool
        ensures { result ≡ few_enough self.now }
    {
        at_most(self.target, MAX_SURFELS)
            & self.scene.counts_within()
            & at_most(self.mats, MAX_ENTRIES)
    }

    // The spacing of the surfels.
    #[tactic(auto, unfolding(crate::specs::Checks::spacing_for))]
    pub(crate) fn spacing(&self) -> Spacing
        requires { self.now.target ≤ max_surfels }
        ensures { result ≡ spacing_for self.now }
    {
        spacing_of(self.lo, self.hi, self.target as f32)
    }
}

// Whether the columns are long enough for so many surfels.
// Kept: the slices and not their lengths, since the contract names the columns once, as the entry's does.
#[tactic(auto, unfolding(crate::specs::Checks::columns_hold))]
fn columns_hold(
    target: usize,
    p: &[f32],
    n: &[f32],
    albedo: &[f32],
    area: &[f32],
    direct: &[f32],
    irr: &[f32],
    rad: &[f32],
) -> bool
    ensures { result ≡ columns_hold target (columns_lent p n albedo area direct irr rad) }
{
    holds(p.len(), target, 3)
        & holds(n.len(), target, 3)
        & holds(albedo.len(), target, 3)
        & (target <= area.len())
        & holds(direct.len(), target, 3)
        & holds(irr.len(), target, 3)
        & holds(rad.len(), target, 3)
}
