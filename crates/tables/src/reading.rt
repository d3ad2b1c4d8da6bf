// A primitive and a part read from their tables.
ghost use Rattle.std.specs.Prelude.{◌≡◌, ◌+◌, ◌*◌, ◌≤◌, length};
ghost use Rattle.vector.specs.Flat.{vec_at};
ghost use Rattle.accept.specs.Tables.{number_at};
ghost use Rattle.tables.specs.Tables.{shape_of, prim_of, part_at};

use crate::{Part, Scene};
use sdf::Shape;
use vector::{Vec3, float_at};

impl Scene<'_> {
    // Primitive k. Each distance reads it, so it is inlined.
    #[inline(always)]
    #[tactic(auto, unfolding(crate::specs::Tables::shape_at))]
    pub fn shape_at(&self, k: usize) -> Shape
        ensures { result ≡ prim_of self.now k }
    {
        let kind = number_at(self.kinds, k);
        let lengths = self.lengths;
        if k < lengths.len() / 8 {
            return shape_of(kind, &lengths[8 * k..]);
        }
        if k == lengths.len() / 8 {
            return shape_of_rest(kind, &lengths[8 * k..]);
        }
        shape_of_rest(kind, &lengths[lengths.len()..])
    }
}

// The shape of a kind where l may hold fewer than eight floats: one that it lacks is NaN.
fn shape_of_rest(kind: u32, l: &[f32]) -> Shape
    ensures { result ≡ shape_of kind l.now }
{
    let eight = [
        float_at(l, 0),
        float_at(l, 1),
        float_at(l, 2),
        float_at(l, 3),
        float_at(l, 4),
        float_at(l, 5),
        float_at(l, 6),
        float_at(l, 7),
    ];
    shape_of(kind, &eight)
}

// The shape of a kind with the eight floats that l begins with. A kind over 6 counts as 6.
// Kept: a kind is a number, since C lends it so, and here it becomes the case of an enum.
#[tactic(auto, unfolding(crate::specs::Tables::shape_of))]
fn shape_of(kind: u32, l: &[f32]) -> Shape
    requires { 8 ≤ length l.now }
    ensures { result ≡ shape_of kind l.now }
{
    match kind {
        0 => Shape::Sphere {
            c: vec_at(l, 0),
            r: l[3],
        },
        1 => Shape::RoundBox {
            c: vec_at(l, 0),
            b: vec_at(l, 1),
            r: l[6],
        },
        2 => Shape::Plane {
            n: vec_at(l, 0),
            h: l[3],
        },
        3 => Shape::Capsule {
            a: vec_at(l, 0),
            b: vec_at(l, 1),
            r: l[6],
        },
        4 => Shape::Torus {
            c: vec_at(l, 0),
            major: l[3],
            minor: l[4],
        },
        5 => Shape::Cylinder {
            a: vec_at(l, 0),
            b: vec_at(l, 1),
            r: l[6],
        },
        _ => Shape::Cone {
            a: vec_at(l, 0),
            b: vec_at(l, 1),
            ra: l[6],
            rb: l[7],
        },
    }
}

// Vector i of l.
// Kept: `vector::at` asks of each float whether it is there, and a distance then takes a fifth longer.
fn vec_at(l: &[f32], i: usize) -> Vec3
    requires { 3 * i + 3 ≤ length l.now }
    ensures { result ≡ vec_at l.now i }
{
    let j = 3 * i;
    Vec3 {
        x: l[j],
        y: l[j + 1],
        z: l[j + 2],
    }
}

// Part j. Each distance reads it, so it is inlined.
#[inline(always)]
pub fn part_at(parts: &[u32], j: usize) -> Part
    ensures { result ≡ part_at parts.now j }
{
    if j < parts.len() / 4 {
        let b = 4 * j;
        return Part {
            base: parts[b],
            first: parts[b + 1],
            many: parts[b + 2],
            mat: parts[b + 3],
        };
    }
    part_at_end(parts, j)
}

// Part j where parts may end within it or before it: a number that is lacking is 0.
fn part_at_end(parts: &[u32], j: usize) -> Part
    ensures { result ≡ part_at parts.now j }
{
    if j > parts.len() / 4 {
        return Part {
            base: 0,
            first: 0,
            many: 0,
            mat: 0,
        };
    }
    let b = 4 * j;
    Part {
        base: number_at(parts, b),
        first: number_at(parts, b + 1),
        many: number_at(parts, b + 2),
        mat: number_at(parts, b + 3),
    }
}

// The number at place k of s, or 0 where s ends before.
// Kept: a line of its own beside `vector::float_at`, whose value past the end is NaN.
pub fn number_at(s: &[u32], k: usize) -> u32
    ensures { result ≡ number_at s.now k }
{
    s.get(k).copied().unwrap_or(0)
}
