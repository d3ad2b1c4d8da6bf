// What a call for placement is lent beside a scene, stored line by line, as the replay program reads
// it: materials, the columns of surfels, the scratch, and how much of each table is lent.
#![tactic(auto)]

ghost use Rattle.std.specs.Prelude.{◌≡◌};

mod lending;

use float::of_bits;
pub use lending::Lent;
use replay::{Line, put};

// Places for 16 materials, for 128 surfels and for scratch of 512 cells; and how many places of each table
// a call is lent, those of the scene too.
#[derive(Clone, Copy)]
pub struct Stored {
    pub materials: [f32; 64],
    pub columns: Columns,
    pub light: Light,
    pub scratch: Scratch,
    pub lent: Lent,
}

// Columns of surfels: their points, their normals, their albedo and their areas.
#[derive(Clone, Copy)]
pub struct Columns {
    pub p: [f32; 384],
    pub n: [f32; 384],
    pub albedo: [f32; 384],
    pub area: [f32; 128],
}

// The light of surfels: direct, arriving and leaving.
#[derive(Clone, Copy)]
pub struct Light {
    pub direct: [f32; 384],
    pub irr: [f32; 384],
    pub rad: [f32; 384],
}

// The scratch of placement: a place for each cell, and one for each surfel.
#[derive(Clone, Copy)]
pub struct Scratch {
    pub head: [u32; 512],
    pub next: [u32; 128],
}

impl Stored {
    ghost use Rattle.std.specs.Prelude.{codes, IsTrue};
    ghost use Rattle.replay.specs.Words.{padded};
    ghost use Rattle.stored_placement.specs.Lent.{lent_of};
    ghost use Rattle.stored_placement.specs.Stores.{filled, floats_put};

    // Every place holds zero, and nothing is lent.
    pub fn nothing() -> Stored {
        Stored {
            materials: [0.0; 64],
            columns: Columns {
                p: [0.0; 384],
                n: [0.0; 384],
                albedo: [0.0; 384],
                area: [0.0; 128],
            },
            light: Light {
                direct: [0.0; 384],
                irr: [0.0; 384],
                rad: [0.0; 384],
            },
            scratch: Scratch {
                head: [0; 512],
                next: [0; 128],
            },
            lent: Lent::from([0; 16]),
        }
    }

    // Stores what the line says, and answers whether it says something: materials, from a place on;
    // how many places of each table are lent; one word for every place of a table, another for each.
    pub fn store(&mut self, line: &Line<'_>) -> bool
        ensures put_materials { line.now.name.now ≡ codes "put_materials"
            → IsTrue result × (self.new ≡ record self.old { materials = floats_put self.old.materials line.now.given }) }
        ensures lent { line.now.name.now ≡ codes "lent" → IsTrue result × (self.new ≡ record self.old { lent = lent_of (padded line.now.given) }) }
        ensures fill { line.now.name.now ≡ codes "fill" → IsTrue result × (self.new ≡ filled self.old (padded line.now.given)) }
        ensures nothing { ¬ IsTrue result → self.new ≡ self.old }
    {
        match line.name {
            b"put_materials" => put(&mut self.materials, &line.given),
            b"lent" => self.lent = Lent::from(line.given.padded()),
            b"fill" => self.fill(line.given.padded()),
            _ => return false,
        }
        true
    }

    // One word in every place of a table, another in each: p, n, albedo, area; direct, irr, rad; head,
    // next.
    fn fill(&mut self, w: [u32; 16])
        ensures { self.new ≡ filled self.old w }
    {
        self.columns.p.fill(of_bits(w[0]));
        self.columns.n.fill(of_bits(w[1]));
        self.columns.albedo.fill(of_bits(w[2]));
        self.columns.area.fill(of_bits(w[3]));
        self.light.direct.fill(of_bits(w[4]));
        self.light.irr.fill(of_bits(w[5]));
        self.light.rad.fill(of_bits(w[6]));
        self.scratch.head.fill(w[7]);
        self.scratch.next.fill(w[8]);
    }
}
