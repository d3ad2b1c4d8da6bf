// The public entries on a grid: each is refused for document 01's reasons and then writes nothing,
// or answers the call.
ghost use Rattle.std.specs.Prelude.{◌≡◌};
ghost use Rattle.grid.specs.Answers.{grid_build_answer, near_answer};

use crate::building::build;
use crate::checks::{Own, check, check_build};
use crate::listing::{count_block, list_block};
use crate::{Dims, Grid, Space};
use accept::limits::MAX_REACH;
use accept::{Refusal, at_most, point, require};
use vector::Vec3;

// Puts n points into the cells of a box: items has their numbers, cell by cell, and starts where
// each cell begins.
pub fn grid_build(
    n: usize,
    p: &[f32],
    space: Space,
    starts: &mut [u32],
    items: &mut [u32],
) -> Result<Dims, Refusal>
    ensures { (result, starts.new, items.new) ≡ grid_build_answer n p.now space.lo space.hi space.cell starts.old items.old }
{
    check_build(n, p, space, starts.len(), items.len())?;
    let frame = space.frame();
    build(n, p, frame, starts, items);
    Ok(frame.dim)
}

// Lists the numbers of the points in the cells within reach of the one that p lies in; how many
// they are.
pub fn near(grid: &Grid, p: Vec3, reach: usize, list: &mut [u32]) -> Result<usize, Refusal>
    ensures { (result, list.new) ≡ near_answer grid.now p reach list.old }
{
    let own = Own {
        ranged: at_most(reach, MAX_REACH),
        floats: point(p),
        ..Own::PASSED
    };
    check(grid, own)?;
    let block = grid.space.block_near(p, reach);
    let count = count_block(grid.starts, grid.items, grid.n, block);
    require(count <= list.len(), Refusal::Length)?;
    list_block(grid.starts, grid.items, grid.n, block, list);
    Ok(count)
}
