// The light of surfels as records, one a surfel, and their reset.
//
// No public function has a `requires`.
#![tactic(auto)]

mod resetting;

pub use resetting::reset_records;
use vector::Vec3;

// The light of a surfel: what it gives off of the lamps' light, what reaches it after at least one
// bounce, and all that it gives off. For C it is nine floats in this order.
#[repr(C)]
#[derive(Clone, Copy)]
pub struct Light {
    pub direct: Vec3,
    pub irr: Vec3,
    pub rad: Vec3,
}
