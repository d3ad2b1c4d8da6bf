// A surfel and a cluster: whether they are linked, and by how much.
ghost use Rattle.std.specs.Prelude.{◌≡◌};
ghost use Rattle.links.specs.Pairs.{tightness, linked_by, pair_of};
ghost use Rattle.links.specs.Needs.{facing};

use crate::{Facing, Pair, Receiver};
use clusters::Cluster;
use scene::shading::soft_shadow;
use scene::{Ray, Shadow};
use tables::Scene;

// The link of surfel a to cluster c, in a scene whose bounds have this diagonal.
#[tactic(auto, unfolding(crate::specs::Pairs::pair_of, crate::specs::Pairs::seen, crate::specs::Needs::facing))]
pub fn pair_of(scene: &Scene, diag: f32, a: Receiver, c: Cluster) -> Pair
    ensures { result ≡ pair_of scene.now diag a c }
{
    let Some(f) = facing(a, c) else {
        return Pair {
            weight: None,
            evals: 0,
        };
    };
    let ray = Ray {
        ro: a.p.plus(a.n.scaled(diag * 5e-4)),
        rd: f.dir,
        tmin: diag * 1e-3,
        tmax: f.r - c.radius * 0.75,
    };
    linked_by(f.factor, soft_shadow(scene, ray, tightness(f.r, c.radius)))
}

// The link of two that face each other by this factor, where the one sees so much of the other.
#[tactic(auto, unfolding(crate::specs::Pairs::linked_by))]
fn linked_by(factor: f32, seen: Shadow) -> Pair
    ensures { result ≡ linked_by factor seen }
{
    let weight = if seen.visibility <= 1e-3 {
        None
    } else {
        Some(factor * seen.visibility)
    };
    Pair {
        weight,
        evals: seen.evals,
    }
}

// How a surfel and a cluster face each other, none where they do not, or not closely enough.
#[tactic(auto, unfolding(crate::specs::Needs::facing, crate::specs::Pairs::faces, crate::specs::Pairs::squared, crate::specs::Pairs::distance, crate::specs::Pairs::direction, crate::specs::Pairs::cos_receiver, crate::specs::Pairs::cos_cluster, crate::specs::Pairs::factor))]
fn facing(a: Receiver, c: Cluster) -> Option<Facing>
    ensures { result ≡ facing a c }
{
    let d = c.p.minus(a.p);
    let r2 = d.length_squared();
    if r2 < 1e-9 {
        return None;
    }
    let r = float::sqrt(r2);
    let dir = d.over(r);
    let cos_i = a.n.dot(dir);
    if cos_i <= 1e-3 {
        return None;
    }
    let cos_c = c.n.dot(dir.negated());
    if cos_c <= 1e-3 {
        return None;
    }
    let factor = cos_i * cos_c * c.area / (3.1415927 * r2 + c.area);
    if factor < 2e-5 {
        return None;
    }
    Some(Facing { r, dir, factor })
}

// How tight a cluster of this radius is as a light at the distance r.
#[tactic(auto, unfolding(crate::specs::Pairs::tightness))]
fn tightness(r: f32, radius: f32) -> f32
    ensures { result ≡ tightness r radius }
{
    float::clamp(r / float::max(radius, 1e-4), 1.5, 32.0)
}
