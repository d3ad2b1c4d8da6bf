// The public entries on a scene: each says why it refuses the call, or answers it. The point, the
// ray's origin and the closure's normal must be in their range.
ghost use Rattle.std.specs.Prelude.{◌≡◌};
ghost use Rattle.scene.specs.Answers.{dist_mat_answer, normal_answer, trace_answer, soft_shadow_answer, hemisphere_closure_answer};

use crate::{Closure, Ray, Shadow, Traced, marching, opening, shading};
use accept::{Refusal, point};
use field::DistHit;
use tables::Scene;
use vector::Vec3;

// What is nearest to p, and how far it is.
pub fn dist_mat(scene: &Scene, p: Vec3) -> Result<DistHit, Refusal>
    ensures { result ≡ dist_mat_answer scene.now p }
{
    scene.check(point(p))?;
    Ok(field::dist_mat(scene, p))
}

// The normal of the surface at p.
pub fn normal(scene: &Scene, p: Vec3) -> Result<Vec3, Refusal>
    ensures { result ≡ normal_answer scene.now p }
{
    scene.check(point(p))?;
    Ok(field::normal(scene, p))
}

// What the ray meets. The first sample is at its tmin, whatever its tmax is.
pub fn trace(scene: &Scene, ray: Ray) -> Result<Traced, Refusal>
    ensures { result ≡ trace_answer scene.now ray.ro ray.rd ray.tmin ray.tmax }
{
    scene.check(point(ray.ro))?;
    Ok(marching::trace(scene, ray))
}

// How much of a light of tightness k is seen along the ray.
pub fn soft_shadow(scene: &Scene, ray: Ray, k: f32) -> Result<Shadow, Refusal>
    ensures { result ≡ soft_shadow_answer scene.now ray.ro ray.rd ray.tmin ray.tmax k }
{
    scene.check(point(ray.ro))?;
    Ok(shading::soft_shadow(scene, ray, k))
}

// The part of the hemisphere above p, about n, that sees no surface up to tmax.
pub fn hemisphere_closure(scene: &Scene, p: Vec3, n: Vec3, tmax: f32) -> Result<Closure, Refusal>
    ensures { result ≡ hemisphere_closure_answer scene.now p n tmax }
{
    scene.check(point(p) & point(n))?;
    Ok(opening::hemisphere_closure(scene, p, n, tmax))
}
