// The cells near a point, as rows of cells that follow one another.
ghost use Rattle.std.specs.Prelude.{◌≡◌, ◌<◌};
ghost use Rattle.grid.specs.Visiting.{first_near, count_near};
ghost use Rattle.grid.specs.Rows.{block_near};

use crate::{Block, Cell, Space};
use vector::Vec3;

impl Space {
    // The cells within reach of the one that p lies in.
    #[tactic(auto, unfolding(crate::specs::Rows::block_near))]
    pub fn block_near(self, p: Vec3, reach: usize) -> Block
        ensures { result ≡ block_near self.lo self.hi self.cell p reach }
    {
        let frame = self.frame();
        let dim = frame.dim;
        let c = frame.cell_of(p);
        let corner = Cell {
            x: first_near(c.x, reach),
            y: first_near(c.y, reach),
            z: first_near(c.z, reach),
        };
        Block {
            first: frame.cell_number(corner),
            wide: count_near(c.x, reach, dim.x),
            rows: count_near(c.y, reach, dim.y),
            layers: count_near(c.z, reach, dim.z),
            row_step: dim.x,
            layer_step: dim.x * dim.y,
        }
    }
}

// The first cell of an axis that is within reach of c.
fn first_near(c: usize, reach: usize) -> usize
    ensures { result ≡ first_near c reach }
{
    c.saturating_sub(reach)
}

// How many cells of an axis of dim cells are within reach of c.
fn count_near(c: usize, reach: usize, dim: usize) -> usize
    requires { c < dim }
    ensures { result ≡ count_near c reach dim }
{
    let end = if reach < dim - c { c + reach + 1 } else { dim };
    end - first_near(c, reach)
}
