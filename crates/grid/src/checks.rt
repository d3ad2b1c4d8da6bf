// Whether a grid is accepted, and why a call on it is refused.
ghost use Rattle.std.specs.Prelude.{◌≡◌, Ok, Err};
ghost use Rattle.accept.specs.Refusal.{outcome};
ghost use Rattle.grid.specs.Lent.{cells_of};
ghost use Rattle.grid.specs.Checks.{sized, tables_hold, list_fits, check, check_build};

use crate::walking::Fitted;
use crate::{Grid, Space};
use accept::limits::{MAX_CELL, MAX_SURFELS, MIN_CELL};
use accept::{
    Refusal, at_most, bounds, coordinates, holds, numbers_below, require, starts_monotone, within,
};

// The tests of what a call brings besides its grid: whether its counts and its numbers are in their
// range, its slices hold their need, and its floats are in their range. They are made between the
// grid's, in the order of the refusals.
#[derive(Clone, Copy)]
pub struct Own {
    pub few: bool,
    pub ranged: bool,
    pub lent: bool,
    pub floats: bool,
}

impl Own {
    // Those of a call that brings nothing.
    pub const PASSED: Own = Own {
        few: true,
        ranged: true,
        lent: true,
        floats: true,
    };
}

// The grid of a call, whose starts and items fit together, or why the call is refused.
#[tactic(auto, unfolding(crate::specs::Checks::check, accept::specs::Refusal::checked))]
pub fn check<'a>(grid: &'a Grid<'a>, own: Own) -> Result<Fitted<'a>, Refusal>
    ensures { result ≡ outcome Err (Ok grid.now) (check grid.now own) }
{
    require(at_most(grid.n, MAX_SURFELS) & own.few, Refusal::Count)?;
    require(grid.space.sized() & own.ranged, Refusal::Range)?;
    let cells = grid.space.cells();
    require(grid.tables_hold(cells) & own.lent, Refusal::Length)?;
    require(own.floats, Refusal::Float)?;
    Fitted::of_cells(grid, cells).ok_or(Refusal::Numbers)
}

impl Grid<'_> {
    // Whether there is a start for each of its cells and one more, and a number for each point.
    #[tactic(auto, unfolding(crate::specs::Checks::tables_hold))]
    fn tables_hold(&self, count: usize) -> bool
        requires { count ≡ cells_of self.now }
        ensures { result ≡ tables_hold self.now }
    {
        (count < self.starts.len()) & (self.n <= self.items.len())
    }

    // Whether the starts rise from 0 to the count of points, and the items number points.
    #[tactic(auto, unfolding(crate::specs::Checks::list_fits))]
    pub(crate) fn list_fits(&self) -> bool
        ensures { result ≡ list_fits self.now }
    {
        self.list_fits_cells(self.space.cells())
    }

    // The same of a grid that is known to have so many cells.
    #[tactic(auto, unfolding(crate::specs::Checks::list_fits))]
    pub(crate) fn list_fits_cells(&self, count: usize) -> bool
        requires { count ≡ cells_of self.now }
        ensures { result ≡ list_fits self.now }
    {
        starts_monotone(self.starts, count, self.n) & numbers_below(self.items, self.n, self.n)
    }
}

// What refuses to build a grid of these points in slices of these lengths.
#[tactic(auto, unfolding(crate::specs::Checks::check_build, accept::specs::Refusal::checked))]
pub fn check_build(
    n: usize,
    p: &[f32],
    space: Space,
    starts: usize,
    items: usize,
) -> Result<(), Refusal>
    ensures { result ≡ check_build n p.now space.lo space.hi space.cell starts items }
{
    require(at_most(n, MAX_SURFELS), Refusal::Count)?;
    require(space.sized(), Refusal::Range)?;
    require(
        holds(p.len(), n, 3) & (space.cells() < starts) & (n <= items),
        Refusal::Length,
    )?;
    require(coordinates(p, n), Refusal::Float)
}

impl Space {
    // Whether the box and the side of a cell are in their range.
    #[tactic(auto, unfolding(crate::specs::Checks::sized))]
    pub fn sized(self) -> bool
        ensures { result ≡ sized self.lo self.hi self.cell }
    {
        bounds(self.lo, self.hi) & within(self.cell, MIN_CELL, MAX_CELL)
    }
}
