// A scene stored line by line, as the replay programs read it. A word that a line lacks is zero;
// what has no place is not stored.
#![tactic(auto)]

ghost use Rattle.std.specs.Prelude.{◌≡◌};
ghost use Rattle.tables.specs.Tables.{scene_of};

use replay::{Line, put_at};
use tables::Scene;

// Three counts, and places for 16 primitives, 8 planes and 16 objects.
// Kept: counts beside tables, since a case may count more than its tables hold, or fewer.
#[derive(Clone, Copy)]
pub struct Stored {
    pub prims: usize,
    pub planes: usize,
    pub objects: usize,
    pub kinds: [u32; 16],
    pub lengths: [f32; 128],
    pub plane_parts: [u32; 32],
    pub object_parts: [u32; 64],
}

impl Stored {
    ghost use Rattle.std.specs.Prelude.{codes, IsTrue, ◌↔◌};
    ghost use Rattle.replay.specs.Words.{padded};
    ghost use Rattle.stored.specs.Stores.{IsStored, with_counts, with_object, with_plane, with_prim};

    // Nothing is counted, and every place holds zeros.
    pub fn nothing() -> Stored {
        Stored {
            prims: 0,
            planes: 0,
            objects: 0,
            kinds: [0; 16],
            lengths: [0.0; 128],
            plane_parts: [0; 32],
            object_parts: [0; 64],
        }
    }

    // Stores the part of a scene that the line says, and answers whether it says one: the counts of
    // primitives, planes and objects; a primitive's number, its kind and its eight floats; the number
    // of a plane or an object, its base, first subtracted, how many, material.
    pub fn store(&mut self, line: &Line<'_>) -> bool
        ensures counts { line.now.name.now ≡ codes "counts" → self.new ≡ with_counts self.old (padded line.now.given) }
        ensures prim { line.now.name.now ≡ codes "prim" → self.new ≡ with_prim self.old (padded line.now.given) }
        ensures plane { line.now.name.now ≡ codes "plane" → self.new ≡ with_plane self.old (padded line.now.given) }
        ensures object { line.now.name.now ≡ codes "object" → self.new ≡ with_object self.old (padded line.now.given) }
        ensures said { IsTrue result ↔ IsStored line.now.name.now }
        ensures nothing { ¬ IsTrue result → self.new ≡ self.old }
    {
        let w = line.given.padded();
        let number = w[0] as usize;
        match line.name {
            b"counts" => {
                self.prims = number;
                self.planes = w[1] as usize;
                self.objects = w[2] as usize;
            }
            b"prim" => {
                put_at(&mut self.kinds, number, &w[1..2]);
                put_at(&mut self.lengths, 8 * number, &w[2..10]);
            }
            b"plane" => put_at(&mut self.plane_parts, 4 * number, &w[1..5]),
            b"object" => put_at(&mut self.object_parts, 4 * number, &w[1..5]),
            _ => return false,
        }
        true
    }

    // The scene, lent: all places of its tables, whatever the counts say.
    pub fn scene(&self) -> Scene<'_>
        ensures { result ≡ scene_of self.now.prims self.now.planes self.now.objects self.now.kinds self.now.lengths self.now.plane_parts self.now.object_parts }
    {
        Scene {
            prims: self.prims,
            planes: self.planes,
            objects: self.objects,
            kinds: &self.kinds,
            lengths: &self.lengths,
            plane_parts: &self.plane_parts,
            object_parts: &self.object_parts,
        }
    }
}
