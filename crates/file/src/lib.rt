// A room file: its words, its header and blocks, whether it is accepted, and its columns read.
//
// Every public function is total: a word that the file lacks is 0, and a column is read only where the
// file, of at most 268,435,456 bytes, has all its entries and the slice holds them.
#![tactic(auto)]

mod blocks;
mod checks;
mod columns;
mod floats;
mod header;
mod lying;
mod words;

pub use blocks::Blocks;
use std::marker::Model;
use vector::Vec3;

// A room file: its bytes, and the counts that it says it has.
#[derive(Drop)]
pub struct RoomFile<'a> {
    bytes: &'a [u8],
    counts: Counts,
}

impl<'a> Model for RoomFile<'a> {
    ghost use Rattle.std.specs.Prelude.{◌≡◌, ℕ, List};
    ghost use Rattle.file.specs.Blocks.{counts_in};

    ghost Value = { List ℕ };

    ghost view = { λ f. f.bytes.now };

    ghost invariant = { λ f. f.counts ≡ counts_in f.bytes.now };
}

// How many surfels, clusters, members, links and probes a file says it has, and the limit of
// bounces.
#[derive(Clone, Copy)]
pub struct Counts {
    pub surfels: u32,
    pub clusters: u32,
    pub members: u32,
    pub links: u32,
    pub probes: u32,
    pub limit: u32,
}

// What stands before the probes: the box of the grid, the side of a cell, and the radius of a
// reading.
// Kept: four fields and no `Space`, since the file has them so, and C is told them in this order.
#[derive(Clone, Copy)]
pub struct ProbeBox {
    pub lo: Vec3,
    pub hi: Vec3,
    pub cell: f32,
    pub radius: f32,
}

// Where a column of a file stands, in words: `width` words of each of `count` entries, those of the
// first from `from` on, those of the next `step` later.
#[derive(Clone, Copy)]
pub struct Column {
    pub from: usize,
    pub step: usize,
    pub width: usize,
    pub count: usize,
}
