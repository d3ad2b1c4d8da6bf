// What a query on a scene answered, told through references.
ghost use Rattle.std.specs.Prelude.{◌≡◌};
ghost use Rattle.outs.specs.Outs.{dist_outs, vec_outs, hit_outs, trace_outs, shadow_outs, closure_outs, left};
ghost use Rattle.outs.specs.Scenes.{trace_left};

use accept::Refusal;
use field::DistHit;
use scene::{Closure, Shadow, Traced};
use vector::Vec3;

// The number that a distance was refused with, or 0 with what is nearest written through references.
pub fn tell_nearest(answer: Result<DistHit, Refusal>, d: &mut f32, mat: &mut u32) -> u32
    ensures { (result, (dist_outs d mat).exit) ≡ left answer (dist_outs d mat).entry }
{
    match answer {
        Ok(nearest) => {
            *d = nearest.d;
            *mat = nearest.mat;
            0
        }
        Err(refusal) => u32::from(refusal),
    }
}

// The number that a normal was refused with, or 0 with the normal written through references.
pub fn tell_normal(answer: Result<Vec3, Refusal>, nx: &mut f32, ny: &mut f32, nz: &mut f32) -> u32
    ensures { (result, (vec_outs nx ny nz).exit) ≡ left answer (vec_outs nx ny nz).entry }
{
    match answer {
        Ok(n) => {
            *nx = n.x;
            *ny = n.y;
            *nz = n.z;
            0
        }
        Err(refusal) => u32::from(refusal),
    }
}

// The number that a ray was refused with, or 0 with what it met written through references.
pub fn tell_traced(
    answer: Result<Traced, Refusal>,
    hit: &mut u32,
    t: &mut f32,
    px: &mut f32,
    py: &mut f32,
    pz: &mut f32,
    nx: &mut f32,
    ny: &mut f32,
    nz: &mut f32,
    mat: &mut u32,
    evals: &mut u32,
) -> u32
    ensures { (result, (trace_outs hit (hit_outs t px py pz nx ny nz mat) evals).exit)
        ≡ trace_left answer (trace_outs hit (hit_outs t px py pz nx ny nz mat) evals).entry }
{
    match answer {
        Ok(traced) => {
            *evals = traced.evals;
            match traced.found {
                Some(h) => {
                    *hit = 1;
                    *t = h.t;
                    *px = h.p.x;
                    *py = h.p.y;
                    *pz = h.p.z;
                    *nx = h.n.x;
                    *ny = h.n.y;
                    *nz = h.n.z;
                    *mat = h.mat;
                }
                None => {
                    *hit = 0;
                }
            }
            0
        }
        Err(refusal) => u32::from(refusal),
    }
}

// The number that a shadow was refused with, or 0 with the shadow written through references.
pub fn tell_shadow(answer: Result<Shadow, Refusal>, visibility: &mut f32, evals: &mut u32) -> u32
    ensures { (result, (shadow_outs visibility evals).exit) ≡ left answer (shadow_outs visibility evals).entry }
{
    match answer {
        Ok(shadow) => {
            *visibility = shadow.visibility;
            *evals = shadow.evals;
            0
        }
        Err(refusal) => u32::from(refusal),
    }
}

// The number that a closure was refused with, or 0 with the closure written through references.
pub fn tell_closure(answer: Result<Closure, Refusal>, sky: &mut f32, evals: &mut u32) -> u32
    ensures { (result, (closure_outs sky evals).exit) ≡ left answer (closure_outs sky evals).entry }
{
    match answer {
        Ok(closure) => {
            *sky = closure.sky;
            *evals = closure.evals;
            0
        }
        Err(refusal) => u32::from(refusal),
    }
}
