// Seeds of surfels: points of the Halton sequence over a box, how far apart surfels lie, where a seed
// comes to lie on the surface, and the surfel at such a point.
//
// Every public function is total. It checks no table: whoever is handed a scene checks it once.
#![tactic(auto)]

mod halton;
mod landing;
mod materials;
mod separation;

pub use halton::seed;
pub use landing::landed;
pub use materials::surfel_at;
pub use separation::spacing_of;
use vector::Vec3;

// A box, its diagonal, and the least distance between two surfels in it.
#[derive(Clone, Copy)]
pub struct Spacing {
    pub lo: Vec3,
    pub hi: Vec3,
    pub diag: f32,
    pub d_min: f32,
}

// The colour of a surface, and how much of it is metal.
#[derive(Clone, Copy)]
pub struct Material {
    pub albedo: Vec3,
    pub metallic: f32,
}

// A piece of the surface: the point, the normal, the part of light it returns, its area, and its
// light: direct, irradiance after at least one bounce, and all that leaves it.
#[derive(Clone, Copy)]
pub struct Surfel {
    pub p: Vec3,
    pub n: Vec3,
    pub albedo: Vec3,
    pub area: f32,
    pub direct: Vec3,
    pub irr: Vec3,
    pub rad: Vec3,
}
