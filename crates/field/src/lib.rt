// The distance field of a scene: what is nearest to a point, the normal of the surface, and a point
// moved onto the surface.
//
// Every public function is total and takes any point. It checks no table: whoever is handed a scene
// checks it once by `tables::Scene::check`.
#![tactic(auto)]

mod gradient;
mod nearest;
mod projection;

pub use gradient::normal;
pub use nearest::{dist, dist_mat};
pub use projection::project;

// A distance, and the material of what lies at it.
#[derive(Clone, Copy)]
pub struct DistHit {
    pub d: f32,
    pub mat: u32,
}
