// Why a reading is refused.
ghost use Rattle.std.specs.Prelude.{◌≡◌, length, Ok, Err};
ghost use Rattle.accept.specs.Refusal.{outcome};
ghost use Rattle.surfel.specs.Gathering.{gridded_of};
ghost use Rattle.surfel.specs.Checks.{radius_within, columns_hold, points_within, check, probes_lent, probes_own};

use crate::gathering::Gridded;
use crate::{Probes, Surfels};
use accept::limits::{MAX_RADIUS, MAX_SURFELS};
use accept::{Refusal, at_most, coordinates, holds, within};
use grid::{Grid, Own};

// The surfels of a call in their grid, or why the call is refused; `own` has the tests of what it
// brings besides.
#[tactic(auto, unfolding(crate::specs::Checks::check))]
pub fn check<'a>(
    grid: &'a Grid<'a>,
    surfels: &'a Surfels<'a>,
    own: Own,
) -> Result<Gridded<'a>, Refusal>
    ensures { result ≡ outcome Err (Ok (gridded_of grid.now surfels.now)) (check grid.now surfels.now own) }
{
    let own = Own {
        lent: surfels.columns_hold(grid.n) & own.lent,
        floats: surfels.points_within(grid.n) & own.floats,
        ..own
    };
    let grid = grid::check(grid, own)?;
    let (p, _) = surfels.p.as_chunks();
    let (normals, _) = surfels.normals.as_chunks();
    let (irr, _) = surfels.irr.as_chunks();
    Ok(Gridded {
        grid,
        surfels,
        p,
        normals,
        irr,
    })
}

// Whether a radius is in its range.
pub fn radius_within(radius: f32) -> bool
    ensures { result ≡ radius_within radius }
{
    within(radius, 0.0, MAX_RADIUS)
}

impl Surfels<'_> {
    // Whether each column holds n vectors.
    #[tactic(auto, unfolding(crate::specs::Checks::columns_hold))]
    fn columns_hold(&self, n: usize) -> bool
        ensures { result ≡ columns_hold n self.now }
    {
        holds(self.p.len(), n, 3) & holds(self.normals.len(), n, 3) & holds(self.irr.len(), n, 3)
    }

    // Whether the points and the normals of n surfels are coordinates.
    #[tactic(auto, unfolding(crate::specs::Checks::points_within))]
    fn points_within(&self, n: usize) -> bool
        ensures { result ≡ points_within n self.now }
    {
        coordinates(self.p, n) & coordinates(self.normals, n)
    }
}

impl Probes<'_> {
    // The tests of these probes, whose readings go into slices of these lengths.
    pub(crate) fn own(&self, seen: usize, light: usize) -> Own
        ensures { result ≡ probes_own self.now seen light }
    {
        Own {
            few: at_most(self.count, MAX_SURFELS),
            ranged: radius_within(self.radius),
            lent: self.lent(seen, light),
            floats: coordinates(self.p, self.count) & coordinates(self.normals, self.count),
        }
    }

    // Whether the probes' slices hold them, and slices of these lengths their readings.
    #[tactic(auto, unfolding(crate::specs::Checks::probes_lent))]
    fn lent(&self, seen: usize, light: usize) -> bool
        ensures { result ≡ probes_lent self.now.count (length self.now.p) (length self.now.normals) seen light }
    {
        let n = self.count;
        holds(self.p.len(), n, 3)
            & holds(self.normals.len(), n, 3)
            & (n <= seen)
            & holds(light, n, 3)
    }
}
