// The cells in which the points lie: those of the box, as wide as the least distance.
ghost use Rattle.std.specs.Prelude.{◌≡◌};
ghost use Rattle.grid.specs.Cells.{cells};
ghost use Rattle.grid.specs.Rows.{block_near};
ghost use Rattle.placement.specs.Kept.{dims_in, space_of};

use grid::{Block, Space};
use seeds::Spacing;
use vector::Vec3;

// How many cells there are.
pub fn cells(s: Spacing) -> usize
    ensures { result ≡ cells (dims_in s) }
{
    space_of(s).cells()
}

// The cells within reach of the one that p lies in.
pub fn block_near(s: Spacing, p: Vec3, reach: usize) -> Block
    ensures { result ≡ block_near s.lo s.hi s.d_min p reach }
{
    space_of(s).block_near(p, reach)
}

// The box and the side of its cells.
fn space_of(s: Spacing) -> Space
    ensures { result ≡ space_of s }
{
    Space {
        lo: s.lo,
        hi: s.hi,
        cell: s.d_min,
    }
}
