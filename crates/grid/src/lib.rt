// A grid of points over a box: which points lie in each cell, and which lie in the cells near a
// point.
//
// A grid is lent as `starts`, one number a cell and one more, and `items`, the numbers of the
// points: those of cell c stand from starts[c] up to starts[c + 1]. The entries refuse for document
// 01's reasons. No public function has a `requires`.
#![tactic(auto)]

mod blocks;
mod building;
mod checks;
mod entries;
mod layout;
mod listing;
#[cfg(test)]
mod tests;
mod walking;

pub use checks::{Own, check};
pub use entries::{grid_build, near};
pub use layout::cell_of;
use std::marker::Model;
use vector::Vec3;
pub use walking::{Fitted, Rows};

// A box from lo to hi, and the side of the cells that divide it.
#[derive(Clone, Copy)]
pub struct Space {
    pub lo: Vec3,
    pub hi: Vec3,
    pub cell: f32,
}

// A grid of n points as it is lent.
// Kept: a count stands beside the slices, since C lends both and a slice may be longer or shorter.
#[derive(Drop)]
pub struct Grid<'a> {
    pub n: usize,
    pub starts: &'a [u32],
    pub items: &'a [u32],
    pub space: Space,
}

impl<'a> Model for Grid<'a> {
    ghost use Rattle.grid.specs.Lent.{Grid as Lent, grid_of};

    ghost Value = { Lent };

    ghost view = { λ g. grid_of g.n g.starts.now g.items.now g.space.lo g.space.hi g.space.cell };
}

// How many cells a grid has on each axis.
#[derive(Clone, Copy)]
pub struct Dims {
    pub x: usize,
    pub y: usize,
    pub z: usize,
}

// A cell, by its place on each axis.
#[derive(Clone, Copy)]
pub struct Cell {
    pub x: usize,
    pub y: usize,
    pub z: usize,
}

// The cells near a point: `layers` layers of `rows` rows of `wide` cells that follow one another.
// The first row of the first layer begins at the cell `first`, each row `row_step` cells after the
// one before it, each layer `layer_step`.
#[derive(Clone, Copy)]
pub struct Block {
    pub first: usize,
    pub wide: usize,
    pub rows: usize,
    pub layers: usize,
    pub row_step: usize,
    pub layer_step: usize,
}
