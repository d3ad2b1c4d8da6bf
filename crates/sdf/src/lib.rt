// Seven shapes, and how far a point lies from each: above 0 outside, below 0 inside.
//
// Any shape and any point have an answer, NaN and the infinities among them.
#![tactic(auto)]

mod beyond;
mod cone;
mod cylinder;
mod solids;

ghost use Rattle.std.specs.Prelude.{◌≡◌};
ghost use Rattle.sdf.specs.Distance.{dist};
ghost use Rattle.sdf.specs.Beyond.{far};

use vector::Vec3;

// A shape and its lengths.
#[derive(Clone, Copy)]
pub enum Shape {
    // Centre and radius.
    Sphere { c: Vec3, r: f32 },
    // Centre, half-sizes with the rounding in them, and the radius of the rounded edges.
    RoundBox { c: Vec3, b: Vec3, r: f32 },
    // Normal, and how far along it from the origin the plane lies.
    Plane { n: Vec3, h: f32 },
    // The two ends of the axis, and the radius around it.
    Capsule { a: Vec3, b: Vec3, r: f32 },
    // Centre, the radius of the ring, which lies flat in x and z, and that of its tube.
    Torus { c: Vec3, major: f32, minor: f32 },
    // The centres of the two flat caps, and the radius.
    Cylinder { a: Vec3, b: Vec3, r: f32 },
    // The centres of the two flat caps, and the radius at each; a radius of 0 is a tip.
    Cone { a: Vec3, b: Vec3, ra: f32, rb: f32 },
}

impl Shape {
    // The signed distance from p to the shape.
    #[tactic(auto, unfolding(crate::specs::Distance::dist))]
    pub fn dist(self, p: Vec3) -> f32
        ensures { result ≡ dist self p }
    {
        match self {
            Shape::Sphere { c, r } => solids::sphere(c, r, p),
            Shape::RoundBox { c, b, r } => solids::round_box(c, b, r, p),
            Shape::Plane { n, h } => solids::plane(n, h, p),
            Shape::Capsule { a, b, r } => solids::capsule(a, b, r, p),
            Shape::Torus { c, major, minor } => solids::torus(c, major, minor, p),
            Shape::Cylinder { a, b, r } => cylinder::cylinder(a, b, r, p),
            Shape::Cone { a, b, ra, rb } => cone::cone(a, b, ra, rb, p),
        }
    }

    // Whether the shape is surely no nearer to p than best, found with no root: where it is true, best
    // is above 0 and no more than the distance. False says nothing.
    #[tactic(auto, unfolding(crate::specs::Beyond::far))]
    pub fn far(self, p: Vec3, best: f32) -> bool
        ensures { result ≡ far self p best }
    {
        match self {
            Shape::Sphere { c, r } => beyond::sphere(c, r, p, best),
            Shape::RoundBox { c, b, r } => beyond::round_box(c, b, r, p, best),
            Shape::Capsule { a, b, r } => beyond::capsule(a, b, r, p, best),
            Shape::Plane { .. }
            | Shape::Torus { .. }
            | Shape::Cylinder { .. }
            | Shape::Cone { .. } => false,
        }
    }
}
