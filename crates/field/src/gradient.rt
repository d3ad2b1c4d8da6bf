// The normal of the surface.
ghost use Rattle.std.specs.Prelude.{◌≡◌};
ghost use Rattle.vector.specs.Vector.{vec};
ghost use Rattle.field.specs.Gradient.{tap, corner, unit_or_y, normal};

use crate::nearest::dist;
use tables::Scene;
use vector::Vec3;

// The normal at p, from four distances round it; Y where these say nothing.
#[tactic(auto, unfolding(crate::specs::Gradient::normal, crate::specs::Gradient::corner, vector::specs::Fold::fold))]
pub fn normal(scene: &Scene, p: Vec3) -> Vec3
    ensures { result ≡ normal scene.now p }
{
    let mut n = Vec3::zero();
    let corners = [
        vec(1.0, -1.0, -1.0),
        vec(-1.0, -1.0, 1.0),
        vec(-1.0, 1.0, -1.0),
        vec(1.0, 1.0, 1.0),
    ];
    for k in corners {
        n = n.plus(tap(scene, p, k));
    }
    unit_or_y(n)
}

// k times the distance a little way off along k.
#[tactic(auto, unfolding(crate::specs::Gradient::tap))]
fn tap(scene: &Scene, p: Vec3, k: Vec3) -> Vec3
    ensures { result ≡ tap scene.now p k }
{
    k.scaled(dist(scene, p.plus(k.scaled(5e-4))))
}

// n divided by its length, or Y where it has next to none.
#[tactic(auto, unfolding(crate::specs::Gradient::unit_or_y))]
fn unit_or_y(n: Vec3) -> Vec3
    ensures { result ≡ unit_or_y n }
{
    let l = n.length();
    if l > 1e-12 {
        n.over(l)
    } else {
        vec(0.0, 1.0, 0.0)
    }
}

// The vector of three floats.
fn vec(x: f32, y: f32, z: f32) -> Vec3
    ensures { result ≡ vec x y z }
{
    Vec3 { x, y, z }
}
