// A grid stored line by line, with its surfels, probes and result tables, as the replay programs
// read them. A word that a line lacks is zero, but `put_starts` and `put_items` store no word that is
// lacking; what has no place is not stored.
#![tactic(auto)]

ghost use Rattle.std.specs.Prelude.{◌≡◌};

mod lent;

use float::of_bits;
use grid::Space;
pub use lent::Lent;
use lent::space_of;
use replay::{Line, Words, put, put_at, shown_at};

// A box, places for 32 surfels, 520 starts, 32 items, a list of 64, 8 probes and their readings.
#[derive(Clone, Copy)]
pub struct Stored {
    pub cells: Cells,
    pub surfels: Surfels,
    pub list: [u32; 64],
    pub probe_p: [f32; 24],
    pub probe_normals: [f32; 24],
    pub seen: [u32; 8],
    pub light: [f32; 24],
    pub lent: Lent,
}

// A grid: its box, where the points of each cell begin, and the points.
#[derive(Clone, Copy)]
pub struct Cells {
    pub space: Space,
    pub starts: [u32; 520],
    pub items: [u32; 32],
}

// Surfels: their points, their normals and their irradiance.
#[derive(Clone, Copy)]
pub struct Surfels {
    pub p: [f32; 96],
    pub normals: [f32; 96],
    pub irr: [f32; 96],
}

impl Stored {
    ghost use Rattle.stored_grid.specs.Stores.{filled};

    // Every place holds zero, and nothing is lent.
    pub fn nothing() -> Stored {
        Stored {
            cells: Cells {
                space: space_of([0; 16]),
                starts: [0; 520],
                items: [0; 32],
            },
            surfels: Surfels {
                p: [0.0; 96],
                normals: [0.0; 96],
                irr: [0.0; 96],
            },
            list: [0; 64],
            probe_p: [0.0; 24],
            probe_normals: [0.0; 24],
            seen: [0; 8],
            light: [0.0; 24],
            lent: Lent::from([0; 16]),
        }
    }

    // Stores what the line says, and answers whether it says something: the box and the size of its
    // cells; a surfel's number, its point, its normal and its irradiance; a probe's number, its point
    // and its normal; how many places of each table are lent; one word for every place that a call can
    // write; starts or items, from the place on that the first word names.
    pub fn store(&mut self, line: &Line<'_>) -> bool {
        let w = line.given.padded();
        let at = 3 * w[0] as usize;
        match line.name {
            b"box" => self.cells.space = space_of(w),
            b"surfel" => {
                put_at(&mut self.surfels.p, at, &w[1..4]);
                put_at(&mut self.surfels.normals, at, &w[4..7]);
                put_at(&mut self.surfels.irr, at, &w[7..10]);
            }
            b"probe" => {
                put_at(&mut self.probe_p, at, &w[1..4]);
                put_at(&mut self.probe_normals, at, &w[4..7]);
            }
            b"lent" => self.lent = Lent::from(w),
            b"fill" => self.fill(w[0]),
            b"put_starts" => put(&mut self.cells.starts, &line.given),
            b"put_items" => put(&mut self.cells.items, &line.given),
            _ => return false,
        }
        true
    }

    // One word in every place that a call can write.
    fn fill(&mut self, word: u32)
        ensures { self.new ≡ filled self.old word }
    {
        self.cells.starts.fill(word);
        self.cells.items.fill(word);
        self.list.fill(word);
        self.seen.fill(word);
        self.light.fill(of_bits(word));
    }

    // Up to 16 words of the table of this name from place `at` on: where cells begin, the numbers of
    // the points, the numbers near a point, which probes are seen, the light at the probes. None where
    // a call writes no such table, or it has no such place.
    pub fn shown(&self, name: &[u8], at: usize) -> Option<Words> {
        match name {
            b"starts" => shown_at(&self.cells.starts, at),
            b"items" => shown_at(&self.cells.items, at),
            b"list" => shown_at(&self.list, at),
            b"seen" => shown_at(&self.seen, at),
            b"light" => shown_at(&self.light, at),
            _ => None,
        }
    }
}
