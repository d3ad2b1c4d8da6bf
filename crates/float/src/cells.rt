// The two casts of a grid: which cell a coordinate lies in, and how many cells an extent takes.
ghost use Rattle.std.specs.Prelude.{◌≡◌};
ghost use Rattle.float.specs.Cells.{truncate, cell, cell_count};

// The number of the cell, from 0 to dim - 1, that holds the coordinate x: its fraction is dropped,
// what lies outside counts for the nearest cell, and NaN for cell 0. With a dim of 0 it is 0.
#[tactic(auto, unfolding(crate::specs::Cells::cell))]
pub fn cell(x: f32, dim: usize) -> usize
    ensures { result ≡ cell x dim }
{
    truncate(x).min(dim.saturating_sub(1))
}

// How many cells an extent of x cells takes: x rounded up, at least 1 and at most 512; 1 for NaN.
pub fn cell_count(x: f32) -> usize
    ensures { result ≡ cell_count x }
{
    let t = truncate(x);
    if 512 <= t {
        512
    } else if (t as f32) < x {
        t + 1
    } else if t == 0 {
        1
    } else {
        t
    }
}

// x without its fraction: 0 below 1 and for NaN, and at most the largest i32.
fn truncate(x: f32) -> usize
    ensures { result ≡ truncate x }
{
    if x < 1.0 {
        0
    } else if x < 2147483648.0 {
        std::num::truncating_f32_to_u64(x) as usize
    } else if x.is_nan() {
        0
    } else {
        2147483647
    }
}
