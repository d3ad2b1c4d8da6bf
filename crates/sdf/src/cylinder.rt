// The distance to a cylinder with flat caps.
ghost use Rattle.std.specs.Prelude.{◌≡◌, cond};
ghost use Rattle.std.specs.Float.Ieee.{neg, lt};
ghost use Rattle.float.specs.Arithmetic.{◌+f◌, 0f};
ghost use Rattle.float.specs.Order.{greater, lesser};
ghost use Rattle.sdf.specs.Cylinder.{cylinder};

use vector::Vec3;

// The distance from p to the cylinder. One whose axis is next to nothing is a sphere around a.
#[tactic(auto, unfolding(crate::specs::Cylinder::cylinder))]
pub fn cylinder(a: Vec3, b: Vec3, r: f32, p: Vec3) -> f32
    ensures { result ≡ cylinder a b r p }
{
    let ba = b.minus(a);
    let pa = p.minus(a);
    let baba = ba.dot(ba);
    if baba < 1e-12 {
        return pa.length() - r;
    }
    let paba = pa.dot(ba);
    let x = pa.scaled(baba).minus(ba.scaled(paba)).length() - r * baba;
    let y = float::abs(paba - baba * 0.5) - baba * 0.5;
    let d = signed_square(x, y, x * x, y * y * baba);
    float::signum(d) * float::sqrt(float::abs(d)) / baba
}

// The square of the distance to the surface, times baba twice, below 0 inside: x2 and y2 are the
// squares, so scaled, of how far p is beyond the side and beyond the caps, x and y their signs.
fn signed_square(x: f32, y: f32, x2: f32, y2: f32) -> f32
    ensures { result ≡ cond (lt (greater x y) 0f) (neg (lesser x2 y2)) (cond (lt 0f x) x2 0f +f cond (lt 0f y) y2 0f) }
{
    if float::max(x, y) < 0.0 {
        -float::min(x2, y2)
    } else {
        square_beyond(x, x2) + square_beyond(y, y2)
    }
}

// The square x2 of x where x is above 0, else 0.
fn square_beyond(x: f32, x2: f32) -> f32
    ensures { result ≡ cond (lt 0f x) x2 0f }
{
    if x > 0.0 { x2 } else { 0.0 }
}
