// The solve: light that goes from surfel to surfel, bounce by bounce.
//
// No public function has a `requires`.
#![tactic(auto)]

mod bouncing;
mod clusters;
mod entries;
mod faint;
mod faint_rows;
mod power;
mod rows;
mod running;
mod surfels;

pub use entries::solve;

// What a solve made: how many bounces, and the greatest absolute step of any channel of rad in the
// last of them, 0 if it made none.
#[derive(Clone, Copy)]
pub struct SolveStats {
    pub bounces: usize,
    pub change: f32,
}
