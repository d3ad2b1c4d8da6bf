// Vectors of three floats by value, vectors of a flat slice, and the tangent frame.
//
// Every public function is total: what lies outside a slice reads as NaN and is not stored.
#![tactic(auto)]

mod arithmetic;
mod flat;
mod tangent;

pub use flat::{at, float_at, put, put_all, put_float};
pub use tangent::frame;

// Three floats: a point, a direction, or light in three channels. For C it is x, y, z in this order.
#[repr(C)]
#[derive(Clone, Copy)]
pub struct Vec3 {
    pub x: f32,
    pub y: f32,
    pub z: f32,
}

// Two directions that stand square to a normal of length 1 and to each other.
#[derive(Clone, Copy)]
pub struct Tangents {
    pub t: Vec3,
    pub b: Vec3,
}
