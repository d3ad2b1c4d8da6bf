// Whether a shape is surely no nearer than a distance that is already known, found with no root.
ghost use Rattle.std.specs.Prelude.{◌≡◌};
ghost use Rattle.sdf.specs.Beyond.{beyond, far_sphere, far_box, far_capsule};

use crate::solids::{off_axis, past_corner};
use vector::Vec3;

// Whether the root of a square, less r, is surely not below best. False says nothing.
#[tactic(auto, unfolding(crate::specs::Beyond::beyond))]
pub fn beyond(square: f32, r: f32, best: f32) -> bool
    ensures { result ≡ beyond square r best }
{
    let u = (best + r) * 1.0001;
    (0.0 < best) & (0.0 <= r) & (0.0 < u) & (r <= u) & (best <= u - r) & (u * u < square)
}

// Whether p is surely no nearer to the sphere than best.
#[tactic(auto, unfolding(crate::specs::Beyond::far_sphere))]
pub fn sphere(c: Vec3, r: f32, p: Vec3, best: f32) -> bool
    ensures { result ≡ far_sphere c r p best }
{
    beyond(p.minus(c).length_squared(), r, best)
}

// Whether p is surely outside the box that lies r further in, and no nearer to the rounded box than
// best.
#[tactic(auto, unfolding(crate::specs::Beyond::far_box))]
pub fn round_box(c: Vec3, b: Vec3, r: f32, p: Vec3, best: f32) -> bool
    ensures { result ≡ far_box c b r p best }
{
    let q = past_corner(c, b, r, p);
    let outside = 0.0 <= float::max(q.x, float::max(q.y, q.z));
    outside & beyond(q.max(Vec3::zero()).length_squared(), r, best)
}

// Whether p is surely no nearer to the capsule than best.
#[tactic(auto, unfolding(crate::specs::Beyond::far_capsule))]
pub fn capsule(a: Vec3, b: Vec3, r: f32, p: Vec3, best: f32) -> bool
    ensures { result ≡ far_capsule a b r p best }
{
    beyond(off_axis(a, b, p).length_squared(), r, best)
}
