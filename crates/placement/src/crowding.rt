// Whether another surfel may be placed at a point.
ghost use Rattle.std.specs.Prelude.{◌≡◌, ◌+◌, ◌<◌};
ghost use Rattle.vector.specs.Flat.{vec_at};
ghost use Rattle.grid.specs.Rows.{row_cell};
ghost use Rattle.placement.specs.Kept.{free};

use crate::chaining::Kept;
use crate::layout::block_near;
use grid::Block;
use vector::Vec3;

impl Kept<'_> {
    // Whether none of the points is too close to `at`: the search over the cells about it ends at the
    // first that is.
    // Kept: document 01 leaves the three loops by a labelled break.
    pub fn free(&self, at: Vec3) -> bool
        ensures { result ≡ free self.now.s (vec_at self.now.p.now) self.now.count at }
    {
        let b = block_near(self.s, at, 1);
        let mut alone = true;
        'search: for z in 0..b.layers {
            for y in 0..b.rows {
                for x in 0..b.wide {
                    if !self.vacant(cell_at(b, x, y, z), at) {
                        alone = false;
                        break 'search;
                    }
                }
            }
        }
        alone
    }
}

// The number of cell x of row y of layer z of a block.
fn cell_at(b: Block, x: usize, y: usize, z: usize) -> usize
    requires { row_cell b y z + x < 134217728 }
    ensures { result ≡ row_cell b y z + x }
{
    b.first + b.layer_step * z + b.row_step * y + x
}
