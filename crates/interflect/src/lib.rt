// The C interface: every entry under its name with the prefix `interflect_`, over numbers, slices and
// `&mut` to a number. `rt lib` in this folder makes one library of it.
//
// Each entry returns 0, or the number of the refusal. No function here asks anything of its caller.
//
// Kept: numbers and slices one by one, and counts beside slices, since C has no other form for them.
#![tactic(auto)]

mod clustering;
mod floats;
mod placing;
mod reading;
mod reporting;
mod rows;
mod scenes;
mod solves;
mod surfels;
mod vectors;

pub use clustering::interflect_build_clusters;
pub use floats::{interflect_cell, interflect_cell_count, interflect_sqrt};
pub use placing::interflect_generate;
pub use reading::interflect_room_read;
pub use reporting::interflect_room_report;
pub use rows::interflect_build;
pub use scenes::{
    interflect_dist_mat, interflect_hemisphere_closure, interflect_normal, interflect_soft_shadow,
    interflect_trace,
};
pub use solves::{interflect_reset, interflect_reset_records, interflect_solve};
pub use surfels::{
    interflect_gather, interflect_gather_all, interflect_grid_build, interflect_near,
};
