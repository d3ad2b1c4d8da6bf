// Products and quotients of vectors.
//
// Kept: beside those of `Vec3`, which is of a crate beneath this one and multiplies as the processor does.
// Over any product they would stand a third time, since both of these are public.
ghost use Rattle.std.specs.Prelude.{◌≡◌};
ghost use Rattle.vector.specs.Vector.{scaled, times, over};

use crate::{product, quotient};
use vector::Vec3;

// Each component times k.
#[tactic(auto, unfolding(vector::specs::Vector::scaled))]
pub fn scaled(v: Vec3, k: f32) -> Vec3
    ensures { result ≡ scaled v k }
{
    Vec3 {
        x: product(v.x, k),
        y: product(v.y, k),
        z: product(v.z, k),
    }
}

// Each component times the other vector's.
#[tactic(auto, unfolding(vector::specs::Vector::times))]
pub fn times(v: Vec3, o: Vec3) -> Vec3
    ensures { result ≡ times v o }
{
    Vec3 {
        x: product(v.x, o.x),
        y: product(v.y, o.y),
        z: product(v.z, o.z),
    }
}

// Each component divided by k.
#[tactic(auto, unfolding(vector::specs::Vector::over))]
pub fn over(v: Vec3, k: f32) -> Vec3
    ensures { result ≡ over v k }
{
    Vec3 {
        x: quotient(v.x, k),
        y: quotient(v.y, k),
        z: quotient(v.z, k),
    }
}
