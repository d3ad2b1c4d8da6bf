// Questions about a stored scene, and their answers as words.
#![tactic(auto)]

mod ask;
mod words;

pub use ask::{
    closure, closure_any, dist_any, dist_mat, normal, normal_any, project, shadow_any, soft_shadow,
    trace, trace_any,
};
