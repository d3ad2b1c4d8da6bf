// A room stored line by line, as the replay programs read it: the tables of its surfels, clusters,
// members, rows and light, and how much of each table a solve is lent. A line `put_` with a table's
// name puts words into that table from a place on; a word that a line lacks is not put, nor one that
// has no place.
#![tactic(auto)]

ghost use Rattle.std.specs.Prelude.{◌≡◌};

mod lent;

use float::of_bits;
pub use lent::Lent;
use replay::{Line, Words, put, shown_at};

// Places for 12 surfels, 8 clusters, 32 members, 16 starts and 64 links; `light` is what a reset is
// given.
#[derive(Clone, Copy)]
pub struct Stored {
    pub albedo: [f32; 36],
    pub area: [f32; 12],
    pub direct: [f32; 36],
    pub cluster_area: [f32; 8],
    pub first: [u32; 8],
    pub count: [u32; 8],
    pub member: [u32; 32],
    pub starts: [u32; 16],
    pub link_cluster: [u32; 64],
    pub link_weight: [f32; 64],
    pub irr: [f32; 36],
    pub rad: [f32; 36],
    pub scratch: [f32; 24],
    pub light: [f32; 36],
    pub lent: Lent,
}

impl Stored {
    ghost use Rattle.stored_room.specs.Stores.{filled};

    // Every place holds zero, and nothing is lent.
    pub fn nothing() -> Stored {
        Stored {
            albedo: [0.0; 36],
            area: [0.0; 12],
            direct: [0.0; 36],
            cluster_area: [0.0; 8],
            first: [0; 8],
            count: [0; 8],
            member: [0; 32],
            starts: [0; 16],
            link_cluster: [0; 64],
            link_weight: [0.0; 64],
            irr: [0.0; 36],
            rad: [0.0; 36],
            scratch: [0.0; 24],
            light: [0.0; 36],
            lent: Lent::from([0; 16]),
        }
    }

    // Stores what the line says, and answers whether it says something: how many places of each table
    // are lent, one word for every place that a call can write, or words of a table.
    pub fn store(&mut self, line: &Line<'_>) -> bool {
        let w = line.given.padded();
        match line.name {
            b"lent" => self.lent = Lent::from(w),
            b"fill" => self.fill(of_bits(w[0])),
            b"fill_direct" => self.direct.fill(of_bits(w[0])),
            b"put_albedo" => put(&mut self.albedo, &line.given),
            b"put_area" => put(&mut self.area, &line.given),
            b"put_direct" => put(&mut self.direct, &line.given),
            b"put_cluster_area" => put(&mut self.cluster_area, &line.given),
            b"put_first" => put(&mut self.first, &line.given),
            b"put_count" => put(&mut self.count, &line.given),
            b"put_member" => put(&mut self.member, &line.given),
            b"put_starts" => put(&mut self.starts, &line.given),
            b"put_link_cluster" => put(&mut self.link_cluster, &line.given),
            b"put_link_weight" => put(&mut self.link_weight, &line.given),
            b"put_irr" => put(&mut self.irr, &line.given),
            b"put_rad" => put(&mut self.rad, &line.given),
            b"put_light" => put(&mut self.light, &line.given),
            _ => return false,
        }
        true
    }

    // One float in every place that a solve can write.
    fn fill(&mut self, x: f32)
        ensures { self.new ≡ filled self.old x }
    {
        self.irr.fill(x);
        self.rad.fill(x);
        self.scratch.fill(x);
    }

    // Up to 16 words of the table of this name from place `at` on: the surfels' irradiance, the light
    // that they give off, the scratch of a solve, their direct light. None where a call writes no such
    // table, or it has no such place.
    pub fn shown(&self, name: &[u8], at: usize) -> Option<Words> {
        match name {
            b"irr" => shown_at(&self.irr, at),
            b"rad" => shown_at(&self.rad, at),
            b"scratch" => shown_at(&self.scratch, at),
            b"direct" => shown_at(&self.direct, at),
            _ => None,
        }
    }
}
