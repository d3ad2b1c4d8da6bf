// The reading: indirect irradiance at a point, from the surfels near it.
//
// A reading is seen, with the light, or unseen: a point that no surfel covers is not dark. The
// entries refuse for document 01's reasons. No public function has a `requires`.
#![tactic(auto)]

mod checks;
mod entries;
mod gathering;
mod probing;
mod weighing;

pub use checks::radius_within;
pub use entries::{gather, gather_all};
use std::marker::Model;
use vector::Vec3;

// The columns of the surfels that a reading uses, three floats each: points, normals, and the
// irradiance that reached them after at least one bounce.
#[derive(Drop)]
pub struct Surfels<'a> {
    pub p: &'a [f32],
    pub normals: &'a [f32],
    pub irr: &'a [f32],
}

impl<'a> Model for Surfels<'a> {
    ghost use Rattle.surfel.specs.Gathering.{Surfels as Columns, surfels_of};

    ghost Value = { Columns };

    ghost view = { λ s. surfels_of s.p.now s.normals.now s.irr.now };
}

// Many probes: how many, their points, their normals, and the radius.
// Kept: a count stands beside the slices, since C lends both and a slice may be longer or shorter.
#[derive(Drop)]
pub struct Probes<'a> {
    pub count: usize,
    pub p: &'a [f32],
    pub normals: &'a [f32],
    pub radius: f32,
}

impl<'a> Model for Probes<'a> {
    ghost use Rattle.surfel.specs.Checks.{Probes as Lent, probes_of};

    ghost Value = { Lent };

    ghost view = { λ q. probes_of q.count q.p.now q.normals.now q.radius };
}

// A surfel as a reading weighs it: the point, the normal, and the irradiance that reached it after
// at least one bounce.
#[derive(Clone, Copy)]
pub struct Surfel {
    pub p: Vec3,
    pub n: Vec3,
    pub irr: Vec3,
}

// Where a reading is taken: the point, the normal there, and the square of the radius.
#[derive(Clone, Copy)]
pub struct Probe {
    pub p: Vec3,
    pub n: Vec3,
    pub r2: f32,
}

// What was weighed so far: the sum of irradiance times weight, and the sum of the weights.
#[derive(Clone, Copy)]
pub struct Weighed {
    pub light: Vec3,
    pub weight: f32,
}

// The light at a point, or that it is unseen: the weights of the surfels near it do not exceed
// 0.000001, as a NaN does not.
// Kept: no Option, since document 01 has the reading as an enum, seen with the light or unseen, and a point
// that no surfel covers must not pass for a dark one.
#[derive(Clone, Copy)]
pub enum Reading {
    Seen(Vec3),
    Unseen,
}
