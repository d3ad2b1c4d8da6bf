// The distance to a cone with flat caps.
ghost use Rattle.std.specs.Prelude.{◌≡◌, cond, ◌&&◌};
ghost use Rattle.std.specs.Float.Ieee.{neg, lt};
ghost use Rattle.float.specs.Arithmetic.{0f, 1f};
ghost use Rattle.sdf.specs.Axis.{half};
ghost use Rattle.sdf.specs.Cone.{cone};

use vector::Vec3;

// The distance from p to the cone. One whose axis is next to nothing is a sphere around a, with the
// greater of the two radii.
#[tactic(auto, unfolding(crate::specs::Cone::cone))]
pub fn cone(a: Vec3, b: Vec3, ra: f32, rb: f32, p: Vec3) -> f32
    ensures { result ≡ cone a b ra rb p }
{
    let ba = b.minus(a);
    let baba = ba.dot(ba);
    if baba < 1e-12 {
        return p.minus(a).length() - float::max(ra, rb);
    }
    let rba = rb - ra;
    let pa = p.minus(a);
    let papa = pa.dot(pa);
    let paba = pa.dot(ba) / baba;
    let x = float::sqrt(float::max(papa - paba * paba * baba, 0.0));
    let cax = float::max(0.0, x - nearer_radius(paba, ra, rb));
    let cay = float::abs(paba - 0.5) - 0.5;
    let k = rba * rba + baba;
    let f = float::clamp((rba * (x - ra) + paba * baba) / k, 0.0, 1.0);
    let cbx = x - ra - f * rba;
    let cby = paba - f;
    let s = inside_sign(cbx, cay);
    s * float::sqrt(float::min(cax * cax + cay * cay * baba, cbx * cbx + cby * cby * baba))
}

// The radius of the cap that is nearer to a point at paba along the axis, 0 at a and 1 at b.
fn nearer_radius(paba: f32, ra: f32, rb: f32) -> f32
    ensures { result ≡ cond (lt paba half) ra rb }
{
    if paba < 0.5 { ra } else { rb }
}

// -1 where a point lies within the side and between the caps, else 1.
fn inside_sign(cbx: f32, cay: f32) -> f32
    ensures { result ≡ cond (lt cbx 0f && lt cay 0f) (neg 1f) 1f }
{
    if (cbx < 0.0) & (cay < 0.0) { -1.0 } else { 1.0 }
}
