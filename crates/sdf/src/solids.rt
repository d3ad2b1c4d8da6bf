// The distances to a sphere, a rounded box, a plane, a capsule and a torus.
ghost use Rattle.std.specs.Prelude.{◌≡◌};
ghost use Rattle.float.specs.Arithmetic.{◌/f◌, 0f, 1f};
ghost use Rattle.float.specs.Order.{clamp};
ghost use Rattle.vector.specs.Vector.{vec, dot, minus, scaled, absolutes};
ghost use Rattle.sdf.specs.Solids.{sphere, round_box, plane, capsule, torus};

use vector::Vec3;

// The distance from p to the sphere.
#[tactic(auto, unfolding(crate::specs::Solids::sphere))]
pub fn sphere(c: Vec3, r: f32, p: Vec3) -> f32
    ensures { result ≡ sphere c r p }
{
    p.minus(c).length() - r
}

// The distance from p to the box with rounded edges.
#[tactic(auto, unfolding(crate::specs::Solids::round_box))]
pub fn round_box(c: Vec3, b: Vec3, r: f32, p: Vec3) -> f32
    ensures { result ≡ round_box c b r p }
{
    let q = past_corner(c, b, r, p);
    q.max(Vec3::zero()).length() + float::min(float::max(q.x, float::max(q.y, q.z)), 0.0) - r
}

// How far p is past the box that lies r further in, on each axis: below 0 within it. The distance
// and `beyond` take it in the loop over parts, so it is inlined.
#[inline(always)]
pub fn past_corner(c: Vec3, b: Vec3, r: f32, p: Vec3) -> Vec3
    ensures { result ≡ minus (absolutes (minus p c)) (minus b (vec r r r)) }
{
    p.minus(c).abs().minus(b.minus(Vec3 { x: r, y: r, z: r }))
}

// The distance from p to the plane, which divides what is inside from what is outside.
#[tactic(auto, unfolding(crate::specs::Solids::plane))]
pub fn plane(n: Vec3, h: f32, p: Vec3) -> f32
    ensures { result ≡ plane n h p }
{
    p.dot(n) - h
}

// The distance from p to the capsule: NaN where its two ends are one point.
#[tactic(auto, unfolding(crate::specs::Solids::capsule))]
pub fn capsule(a: Vec3, b: Vec3, r: f32, p: Vec3) -> f32
    ensures { result ≡ capsule a b r p }
{
    off_axis(a, b, p).length() - r
}

// From the nearest point of the axis between a and b to p. It is inlined for the same reason.
#[inline(always)]
pub fn off_axis(a: Vec3, b: Vec3, p: Vec3) -> Vec3
    ensures { result ≡ minus (minus p a) (scaled (minus b a) (clamp (dot (minus p a) (minus b a) /f dot (minus b a) (minus b a)) 0f 1f)) }
{
    let pa = p.minus(a);
    let ba = b.minus(a);
    let h = float::clamp(pa.dot(ba) / ba.dot(ba), 0.0, 1.0);
    pa.minus(ba.scaled(h))
}

// The distance from p to the torus.
#[tactic(auto, unfolding(crate::specs::Solids::torus))]
pub fn torus(c: Vec3, major: f32, minor: f32, p: Vec3) -> f32
    ensures { result ≡ torus c major minor p }
{
    let q = p.minus(c);
    let xz = float::sqrt(q.x * q.x + q.z * q.z) - major;
    float::sqrt(xz * xz + q.y * q.y) - minor
}
