// Clusters: surfels of one voxel whose normals point along one axis, taken together as one emitter.
//
// The entry answers why a call is refused, as a `Refusal`. No public function has a `requires`.
#![tactic(auto)]

mod aggregating;
mod checks;
mod columns;
mod entries;
mod grouping;
mod keys;
mod sorting;
mod surfels;

pub use columns::Columns;
pub use entries::build_clusters;
pub use keys::normal_bucket;
pub use surfels::Surfels;
use vector::Vec3;

// A group of surfels as one emitter: its centre, its normal, its area, and the radius of a disc with
// that area.
#[derive(Clone, Copy)]
pub struct Cluster {
    pub p: Vec3,
    pub n: Vec3,
    pub area: f32,
    pub radius: f32,
}

// A box from lo to hi, and into how many voxels each axis of it is cut.
#[derive(Clone, Copy)]
pub struct Cut {
    pub lo: Vec3,
    pub hi: Vec3,
    pub res: usize,
}

// A box cut into res voxels on each axis: where it begins, and how many voxels a unit of length
// takes.
#[derive(Clone, Copy)]
pub struct Voxels {
    pub lo: Vec3,
    pub inv: Vec3,
    pub res: usize,
}

// Members summed: places and normals by area, and the areas.
#[derive(Clone, Copy)]
pub struct Sums {
    pub p: Vec3,
    pub n: Vec3,
    pub area: f32,
}

// How many clusters were made, and how many members they have in all.
#[derive(Clone, Copy)]
pub struct Clustered {
    pub clusters: usize,
    pub members: usize,
}
