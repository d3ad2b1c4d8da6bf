// The links of a row: what links a surfel to a cluster and by how much, what the links of a surfel
// should sum to, and their scaling to that.
//
// No public function has a `requires`.
#![tactic(auto)]

mod pairs;
mod scaling;

pub use pairs::pair_of;
pub use scaling::{calibrate, target_of};
use vector::Vec3;

// A surfel as a row sees it: the point and the normal.
#[derive(Clone, Copy)]
pub struct Receiver {
    pub p: Vec3,
    pub n: Vec3,
}

// How a surfel and a cluster face each other: how far and in which direction the cluster is, and
// their form factor.
#[derive(Clone, Copy)]
pub struct Facing {
    pub r: f32,
    pub dir: Vec3,
    pub factor: f32,
}

// The weight of the link of a surfel to a cluster, none where they are not linked, and how many
// distances were evaluated.
#[derive(Clone, Copy)]
pub struct Pair {
    pub weight: Option<f32>,
    pub evals: u32,
}
