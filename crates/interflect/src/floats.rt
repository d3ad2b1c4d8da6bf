// The float functions that are compared with the processor's at every bit pattern.
ghost use Rattle.std.specs.Prelude.{◌≡◌, T};
ghost use Rattle.std.specs.Float.Ieee.Positive.{positive};
ghost use Rattle.float.specs.Root.{square_root, NearestRoot};
ghost use Rattle.float.specs.Cells.{cell, cell_count};

// The square root: the float nearest the exact root, ties to even.
#[unsafe(no_mangle)]
pub extern "C" fn interflect_sqrt(x: f32) -> f32
    ensures value { result ≡ square_root x }
    ensures nearest { T (positive x) → NearestRoot x result }
{
    float::sqrt(x)
}

// The number of the cell, from 0 to dim - 1, that holds the coordinate x.
#[unsafe(no_mangle)]
pub extern "C" fn interflect_cell(x: f32, dim: usize) -> usize
    ensures { result ≡ cell x dim }
{
    float::cell(x, dim)
}

// How many cells an extent of x cells takes, from 1 to 512.
#[unsafe(no_mangle)]
pub extern "C" fn interflect_cell_count(x: f32) -> usize
    ensures { result ≡ cell_count x }
{
    float::cell_count(x)
}
