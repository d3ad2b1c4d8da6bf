// The queries on a scene. Each returns 0, or the number of the refusal and then writes nothing.
ghost use Rattle.std.specs.Prelude.{◌≡◌};
ghost use Rattle.vector.specs.Vector.{vec};
ghost use Rattle.tables.specs.Tables.{scene_in};
ghost use Rattle.outs.specs.Outs.{dist_outs, vec_outs, hit_outs, trace_outs, shadow_outs, closure_outs};
ghost use Rattle.interflect.specs.Scenes.{interflect_dist_mat, interflect_normal, interflect_trace, interflect_soft_shadow, interflect_hemisphere_closure};

use crate::vectors::vec;
use scene::Ray;
use tables::Scene;

// The distance from x y z to the nearest of the scene, and its material.
#[unsafe(no_mangle)]
pub extern "C" fn interflect_dist_mat(
    prims: usize,
    planes: usize,
    objects: usize,
    kinds: &[u32],
    lengths: &[f32],
    plane_parts: &[u32],
    object_parts: &[u32],
    x: f32,
    y: f32,
    z: f32,
    d: &mut f32,
    mat: &mut u32,
) -> u32
    ensures { (result, (dist_outs d mat).exit)
        ≡ interflect_dist_mat (scene_in prims planes objects kinds lengths plane_parts object_parts) (vec x y z) (dist_outs d mat).entry }
{
    let scene = Scene {
        prims,
        planes,
        objects,
        kinds,
        lengths,
        plane_parts,
        object_parts,
    };
    let answer = scene::dist_mat(&scene, vec(x, y, z));
    outs::tell_nearest(answer, d, mat)
}

// The normal at x y z.
#[unsafe(no_mangle)]
pub extern "C" fn interflect_normal(
    prims: usize,
    planes: usize,
    objects: usize,
    kinds: &[u32],
    lengths: &[f32],
    plane_parts: &[u32],
    object_parts: &[u32],
    x: f32,
    y: f32,
    z: f32,
    nx: &mut f32,
    ny: &mut f32,
    nz: &mut f32,
) -> u32
    ensures { (result, (vec_outs nx ny nz).exit)
        ≡ interflect_normal (scene_in prims planes objects kinds lengths plane_parts object_parts) (vec x y z) (vec_outs nx ny nz).entry }
{
    let scene = Scene {
        prims,
        planes,
        objects,
        kinds,
        lengths,
        plane_parts,
        object_parts,
    };
    let answer = scene::normal(&scene, vec(x, y, z));
    outs::tell_normal(answer, nx, ny, nz)
}

// What the ray from ro along rd meets first: hit becomes 1 and where it met is written, or 0 and
// that is left alone.
#[unsafe(no_mangle)]
pub extern "C" fn interflect_trace(
    prims: usize,
    planes: usize,
    objects: usize,
    kinds: &[u32],
    lengths: &[f32],
    plane_parts: &[u32],
    object_parts: &[u32],
    rox: f32,
    roy: f32,
    roz: f32,
    rdx: f32,
    rdy: f32,
    rdz: f32,
    tmin: f32,
    tmax: f32,
    hit: &mut u32,
    t: &mut f32,
    px: &mut f32,
    py: &mut f32,
    pz: &mut f32,
    nx: &mut f32,
    ny: &mut f32,
    nz: &mut f32,
    mat: &mut u32,
    evals: &mut u32,
) -> u32
    ensures { (result, (trace_outs hit (hit_outs t px py pz nx ny nz mat) evals).exit)
        ≡ interflect_trace (scene_in prims planes objects kinds lengths plane_parts object_parts) (vec rox roy roz) (vec rdx rdy rdz) tmin tmax
        (trace_outs hit (hit_outs t px py pz nx ny nz mat) evals).entry }
{
    let scene = Scene {
        prims,
        planes,
        objects,
        kinds,
        lengths,
        plane_parts,
        object_parts,
    };
    let ray = Ray {
        ro: vec(rox, roy, roz),
        rd: vec(rdx, rdy, rdz),
        tmin,
        tmax,
    };
    let answer = scene::trace(&scene, ray);
    outs::tell_traced(answer, hit, t, px, py, pz, nx, ny, nz, mat, evals)
}

// How much of a light along rd is seen from ro, from 0 to 1.
#[unsafe(no_mangle)]
pub extern "C" fn interflect_soft_shadow(
    prims: usize,
    planes: usize,
    objects: usize,
    kinds: &[u32],
    lengths: &[f32],
    plane_parts: &[u32],
    object_parts: &[u32],
    rox: f32,
    roy: f32,
    roz: f32,
    rdx: f32,
    rdy: f32,
    rdz: f32,
    tmin: f32,
    tmax: f32,
    k: f32,
    visibility: &mut f32,
    evals: &mut u32,
) -> u32
    ensures { (result, (shadow_outs visibility evals).exit)
        ≡ interflect_soft_shadow (scene_in prims planes objects kinds lengths plane_parts object_parts) (vec rox roy roz) (vec rdx rdy rdz) tmin tmax k
        (shadow_outs visibility evals).entry }
{
    let scene = Scene {
        prims,
        planes,
        objects,
        kinds,
        lengths,
        plane_parts,
        object_parts,
    };
    let ray = Ray {
        ro: vec(rox, roy, roz),
        rd: vec(rdx, rdy, rdz),
        tmin,
        tmax,
    };
    let answer = scene::soft_shadow(&scene, ray, k);
    outs::tell_shadow(answer, visibility, evals)
}

// The part of the hemisphere round n, above p, that sees no surface within tmax.
#[unsafe(no_mangle)]
pub extern "C" fn interflect_hemisphere_closure(
    prims: usize,
    planes: usize,
    objects: usize,
    kinds: &[u32],
    lengths: &[f32],
    plane_parts: &[u32],
    object_parts: &[u32],
    px: f32,
    py: f32,
    pz: f32,
    nx: f32,
    ny: f32,
    nz: f32,
    tmax: f32,
    sky: &mut f32,
    evals: &mut u32,
) -> u32
    ensures { (result, (closure_outs sky evals).exit)
        ≡ interflect_hemisphere_closure (scene_in prims planes objects kinds lengths plane_parts object_parts) (vec px py pz) (vec nx ny nz) tmax
        (closure_outs sky evals).entry }
{
    let scene = Scene {
        prims,
        planes,
        objects,
        kinds,
        lengths,
        plane_parts,
        object_parts,
    };
    let answer = scene::hemisphere_closure(&scene, vec(px, py, pz), vec(nx, ny, nz), tmax);
    outs::tell_closure(answer, sky, evals)
}
