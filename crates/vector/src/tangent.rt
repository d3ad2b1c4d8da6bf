// The tangent frame of Duff et al. 2017.
ghost use Rattle.std.specs.Prelude.{◌≡◌};
ghost use Rattle.vector.specs.Tangent.{sign, frame};

use crate::{Tangents, Vec3};

// The two directions that go with the normal n. Where n.z is 0, of either sign, n counts as facing up.
#[tactic(auto, unfolding(crate::specs::Tangent::frame))]
pub fn frame(n: Vec3) -> Tangents
    ensures { result ≡ frame n }
{
    let s = sign(n.z);
    let a = -1.0 / (s + n.z);
    let b = n.x * n.y * a;
    Tangents {
        t: Vec3 {
            x: 1.0 + s * n.x * n.x * a,
            y: s * b,
            z: -s * n.x,
        },
        b: Vec3 {
            x: b,
            y: s + n.y * n.y * a,
            z: -n.y,
        },
    }
}

// 1 where z is 0 or more, else -1.
#[tactic(auto, unfolding(crate::specs::Tangent::sign))]
fn sign(z: f32) -> f32
    ensures { result ≡ sign z }
{
    if z >= 0.0 { 1.0 } else { -1.0 }
}
