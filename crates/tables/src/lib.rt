// A scene lent as tables: primitives and parts read from them, and whether they are accepted.
//
// Every public function is total: a float outside a table reads as NaN, a number as 0.
#![tactic(auto)]

ghost use Rattle.tables.specs.Tables.{Scene as LentScene, scene_of};

mod checks;
mod reading;

pub use reading::part_at;
use std::marker::Model;

// A scene lent as tables: how many primitives, planes and objects it has; for each primitive a kind,
// and eight floats in the order of the shape's fields; for each plane and each object four numbers,
// its part.
// Kept: counts stand beside slices, since C lends both and a slice may be longer or shorter.
#[derive(Drop)]
pub struct Scene<'a> {
    pub prims: usize,
    pub planes: usize,
    pub objects: usize,
    pub kinds: &'a [u32],
    pub lengths: &'a [f32],
    pub plane_parts: &'a [u32],
    pub object_parts: &'a [u32],
}

impl<'a> Model for Scene<'a> {
    ghost Value = { LentScene };

    ghost view = { λ s. scene_of s.prims s.planes s.objects s.kinds.now s.lengths.now s.plane_parts.now s.object_parts.now };
}

// A plane or an object: its base primitive, the first that is subtracted from it, how many are, and
// its material.
#[derive(Clone, Copy)]
pub struct Part {
    pub base: u32,
    pub first: u32,
    pub many: u32,
    pub mat: u32,
}
