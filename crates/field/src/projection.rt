// A point moved onto the surface.
ghost use Rattle.std.specs.Prelude.{◌≡◌};
ghost use Rattle.vector.specs.Vector.{minus, scaled};
ghost use Rattle.field.specs.Gradient.{normal};
ghost use Rattle.field.specs.Projection.{project};

use crate::gradient::normal;
use crate::nearest::dist;
use tables::Scene;
use vector::Vec3;

// p moved onto the surface, where its distance falls below eps within ten tests; none where it does
// not, where the distance is not finite, or where it is beyond diag.
pub fn project(scene: &Scene, p: Vec3, eps: f32, diag: f32) -> Option<Vec3>
    ensures { result ≡ project scene.now p eps diag }
{
    let mut q = p;
    for _i in 0..10_usize {
        let d = dist(scene, q);
        let a = float::abs(d);
        if a < eps {
            return Some(q);
        }
        if !float::is_finite(d) {
            return None;
        }
        if a > diag {
            return None;
        }
        q = moved(scene, q, d);
    }
    None
}

// p moved against the normal there by the distance d.
fn moved(scene: &Scene, p: Vec3, d: f32) -> Vec3
    ensures { result ≡ minus p (scaled (normal scene.now p) d) }
{
    p.minus(normal(scene, p).scaled(d))
}
