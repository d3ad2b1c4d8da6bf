// The public entries on a scene of distance shapes, and the marches beneath them.
//
// The entries refuse for document 01's reasons. The functions of `marching`, `shading` and `opening`
// are total and take any ray: they are for callers that have checked the scene themselves. No
// public function has a `requires`.
#![tactic(auto)]

mod entries;
pub mod marching;
pub mod opening;
pub mod shading;

pub use entries::{dist_mat, hemisphere_closure, normal, soft_shadow, trace};
use vector::Vec3;

// A ray from ro along rd, followed from tmin up to tmax.
#[derive(Clone, Copy)]
pub struct Ray {
    pub ro: Vec3,
    pub rd: Vec3,
    pub tmin: f32,
    pub tmax: f32,
}

// Where a ray met the scene: how far along, the point, the normal and the material.
#[derive(Clone, Copy)]
pub struct Hit {
    pub t: f32,
    pub p: Vec3,
    pub n: Vec3,
    pub mat: u32,
}

// What a ray met, and how many distances were evaluated.
#[derive(Clone, Copy)]
pub struct Traced {
    pub found: Option<Hit>,
    pub evals: u32,
}

// A ray's cursor: where the next sample is, and how many were made.
#[derive(Clone, Copy)]
pub struct March {
    pub t: f32,
    pub steps: u32,
}

// A shadow's cursor: the visibility so far, where the next sample is, the last sample, and how many
// were made.
#[derive(Clone, Copy)]
pub struct ShadowMarch {
    pub res: f32,
    pub t: f32,
    pub ph: f32,
    pub steps: u32,
}

// Where a ray came closest: y back from the sample, at the distance d.
#[derive(Clone, Copy)]
pub struct Approach {
    pub y: f32,
    pub d: f32,
}

// How much of a light is seen, from 0 to 1, and how many distances were evaluated.
#[derive(Clone, Copy)]
pub struct Shadow {
    pub visibility: f32,
    pub evals: u32,
}

// The part of the hemisphere that sees no surface, and how many distances were evaluated.
#[derive(Clone, Copy)]
pub struct Closure {
    pub sky: f32,
    pub evals: u32,
}

// How many rays met nothing, and how many distances were evaluated.
#[derive(Clone, Copy, Default)]
pub struct Openings {
    pub missed: u32,
    pub evals: u32,
}
