// How many cells a box takes, and which of them a point lies in.
ghost use Rattle.std.specs.Prelude.{◌≡◌};
ghost use Rattle.float.specs.Arithmetic.{◌/f◌, 1f};
ghost use Rattle.grid.specs.Cells.{dims_of, cells, cell_of, cell_number};
ghost use Rattle.grid.specs.Needs.{Bounded, Within};

use crate::{Cell, Dims, Space};
use float::cell_count;
use vector::Vec3;

impl Space {
    // How many cells the box takes on each axis, each from 1 to 512.
    #[tactic(auto, unfolding(crate::specs::Cells::dims_of, vector::specs::Vector::minus))]
    pub fn dims(self) -> Dims
        ensures { result ≡ dims_of self.lo self.hi self.cell }
    {
        let inv_cell = 1.0 / self.cell;
        let ext = self.hi.minus(self.lo);
        Dims {
            x: cell_count(ext.x * inv_cell),
            y: cell_count(ext.y * inv_cell),
            z: cell_count(ext.z * inv_cell),
        }
    }

    // How many cells the box takes.
    pub fn cells(self) -> usize
        ensures { result ≡ cells (dims_of self.lo self.hi self.cell) }
    {
        self.frame().cells()
    }

    // How points of the box are told their cells.
    #[tactic(auto, using(crate::proofs::Numbered::dims_bounded))]
    pub(crate) fn frame(self) -> Frame
        ensures corner { result.lo ≡ self.lo }
        ensures inverse { result.inv_cell ≡ 1f /f self.cell }
        ensures dims { result.dim ≡ dims_of self.lo self.hi self.cell }
    {
        Frame {
            lo: self.lo,
            inv_cell: 1.0 / self.cell,
            dim: self.dims(),
        }
    }
}

// The cell that p lies in; a point outside the cells counts for the nearest.
// Kept: a public function stays, with its promise for any dimensions; `Frame::cell_of` calls it, and
// says besides that the cell lies within the frame's.
#[tactic(auto, unfolding(crate::specs::Cells::cell_of, vector::specs::Vector::minus))]
pub fn cell_of(p: Vec3, lo: Vec3, inv_cell: f32, dim: Dims) -> Cell
    ensures { result ≡ cell_of p lo inv_cell dim }
{
    let off = p.minus(lo);
    Cell {
        x: float::cell(off.x * inv_cell, dim.x),
        y: float::cell(off.y * inv_cell, dim.y),
        z: float::cell(off.z * inv_cell, dim.z),
    }
}

// How points are told their cells: by the corner of the box, one over the side of a cell, and how
// many cells each axis has, from 1 to 512.
#[derive(Clone, Copy)]
pub struct Frame {
    pub lo: Vec3,
    pub inv_cell: f32,
    pub dim: Dims,
    ghost bounded: { Bounded dim },
}

impl Frame {
    // How many cells there are.
    pub fn cells(self) -> usize
        ensures { result ≡ cells self.dim }
    {
        self.dim.x * self.dim.y * self.dim.z
    }

    // The cell that p lies in.
    #[tactic(auto, using(crate::proofs::Numbered::cell_within))]
    pub fn cell_of(self, p: Vec3) -> Cell
        ensures value { result ≡ cell_of p self.lo self.inv_cell self.dim }
        ensures within { Within self.dim result }
    {
        cell_of(p, self.lo, self.inv_cell, self.dim)
    }

    // The number of a cell: x runs fastest, then y.
    #[tactic(auto, unfolding(crate::specs::Cells::cell_number))]
    pub fn cell_number(self, c: Cell) -> usize
        requires { Within self.dim c }
        ensures { result ≡ cell_number self.dim c }
    {
        c.x + self.dim.x * (c.y + self.dim.y * c.z)
    }
}
