// The numbers near a point, row by row: the cells of a row follow one another, so that its numbers
// stand together in items.
ghost use Rattle.std.specs.Prelude.{◌≡◌, cond, Some, None};
ghost use Rattle.std.specs.Iterator.{YieldsFirstBy, item_count};
ghost use Rattle.grid.specs.Lent.{cells_of};
ghost use Rattle.grid.specs.Checks.{list_fits};
ghost use Rattle.grid.specs.Rows.{rows_near};

use crate::{Block, Grid};
use accept::wide;
use std::marker::Model;
use vector::Vec3;

// A grid whose starts and items fit together, as `check` hands it out.
#[derive(Drop)]
pub struct Fitted<'a> {
    grid: &'a Grid<'a>,
}

impl<'a> Model for Fitted<'a> {
    ghost use Rattle.std.specs.Prelude.{true, ◌≡◌};
    ghost use Rattle.grid.specs.Lent.{Grid as Lent};
    ghost use Rattle.grid.specs.Checks.{list_fits};

    ghost Value = { Lent };

    ghost view = { λ f. f.grid.now };

    ghost invariant = { λ f. list_fits f.grid.now ≡ true };
}

impl<'a> Fitted<'a> {
    // The grid, if its starts and items fit together.
    pub(crate) fn new(grid: &'a Grid<'a>) -> Option<Fitted<'a>>
        ensures { result ≡ cond (list_fits grid.now) (Some grid.now) None }
    {
        Fitted::of_cells(grid, grid.space.cells())
    }

    // The same of a grid that is known to have so many cells.
    pub(crate) fn of_cells(grid: &'a Grid<'a>, count: usize) -> Option<Fitted<'a>>
        requires { count ≡ cells_of grid.now }
        ensures { result ≡ cond (list_fits grid.now) (Some grid.now) None }
    {
        if grid.list_fits_cells(count) {
            Some(Fitted { grid })
        } else {
            None
        }
    }

    // The rows of the cells within reach of the one that p lies in.
    pub fn rows_near(&self, p: Vec3, reach: usize) -> Rows<'a>
        ensures { result ≡ rows_near self.now p reach }
    {
        let grid = self.grid;
        Rows {
            starts: grid.starts,
            items: grid.items,
            block: grid.space.block_near(p, reach),
            z: 0,
            y: 0,
        }
    }
}

// The rows of a block that are left, layer after layer: of each the numbers of its points.
#[derive(Drop)]
pub struct Rows<'a> {
    starts: &'a [u32],
    items: &'a [u32],
    block: Block,
    z: usize,
    y: usize,
}

impl<'a> Model for Rows<'a> {
    ghost use Rattle.std.specs.Prelude.{ℕ, List};
    ghost use Rattle.grid.specs.Rows.{rows_left, RowsLeft};

    ghost Value = { List (List ℕ) };

    ghost view = { λ r. rows_left r.starts.now r.items.now r.block r.z r.y };

    ghost invariant = { λ r. RowsLeft r.starts.now r.items.now r.block r.y };
}

impl<'a> Iterator for Rows<'a> {
    type Item = &'a [u32];

    ghost next_gives = { YieldsFirstBy (λ row. row.now) (λ rows. rows) };

    ghost remaining = { item_count (λ rows. rows) };

    fn next(&mut self) -> Option<&'a [u32]> {
        if self.z >= self.block.layers {
            return None;
        }
        let c = self.block.first + self.block.layer_step * self.z + self.block.row_step * self.y;
        let from = wide(self.starts[c]);
        let to = wide(self.starts[c + self.block.wide]);
        self.y += 1;
        if self.y == self.block.rows {
            self.y = 0;
            self.z += 1;
        }
        Some(&self.items[from..to])
    }
}
