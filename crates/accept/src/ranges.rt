// Floats in their range.
ghost use Rattle.std.specs.Prelude.{◌≡◌, ◌≤◌, length};
ghost use Rattle.float.specs.Column.{float_at};
ghost use Rattle.accept.specs.Ranges.{within, all_within, floats_within, axis, coordinate, coordinates, point, bounds};

use crate::limits::MAX_COORDINATE;
use crate::listed::Listed;
use crate::tables;
use vector::Vec3;

// Whether x is from lo to hi, both included. A NaN never is, and an infinity only where an end of
// the range is infinite.
pub fn within(x: f32, lo: f32, hi: f32) -> bool
    ensures { result ≡ within x lo hi }
{
    (lo <= x) & (x <= hi)
}

// Whether s holds n entries of `each` floats, and each float of these entries is from lo to hi.
pub fn floats_within<F: Listed<f32>>(s: F, n: usize, each: usize, lo: f32, hi: f32) -> bool
    ensures { result ≡ floats_within (F.items s) n each lo hi }
{
    tables::holds(s.count(), n, each) && all_within(s, n * each, lo, hi)
}

// Whether each of the first n floats of s is from lo to hi.
fn all_within<F: Listed<f32>>(s: F, n: usize, lo: f32, hi: f32) -> bool
    requires { n ≤ length (F.items s) }
    ensures { result ≡ all_within (float_at (F.items s)) n lo hi }
{
    let mut ok = true;
    for k in 0..n.min(s.count()) {
        let x = s.item(k).unwrap_or(float::nan());
        let passed = within(x, lo, hi);
        ok &= passed;
    }
    ok
}

// Whether lo and hi serve as one axis of bounds: both at most limit in size, lo not above hi.
pub fn axis(lo: f32, hi: f32, limit: f32) -> bool
    ensures { result ≡ axis lo hi limit }
{
    within(lo, -limit, limit) & within(hi, -limit, limit) & (lo <= hi)
}

// Whether x serves as a coordinate: at most 10,000 in size.
pub fn coordinate(x: f32) -> bool
    ensures { result ≡ coordinate x }
{
    within(x, -MAX_COORDINATE, MAX_COORDINATE)
}

// Whether s holds n vectors, each float of them a coordinate.
pub fn coordinates<F: Listed<f32>>(s: F, n: usize) -> bool
    ensures { result ≡ coordinates (F.items s) n }
{
    floats_within(s, n, 3, -MAX_COORDINATE, MAX_COORDINATE)
}

// Whether p serves as a point or a normal: three coordinates.
pub fn point(p: Vec3) -> bool
    ensures { result ≡ point p }
{
    coordinate(p.x) & coordinate(p.y) & coordinate(p.z)
}

// Whether lo and hi serve as bounds: on each axis at most 10,000 in size, lo not above hi.
// Kept: two corners and no box, here and in the types that have both beside a cell, a resolution or a target:
// each is used by itself, and a box would be one name more at each use.
pub fn bounds(lo: Vec3, hi: Vec3) -> bool
    ensures { result ≡ bounds lo hi }
{
    axis(lo.x, hi.x, MAX_COORDINATE)
        & axis(lo.y, hi.y, MAX_COORDINATE)
        & axis(lo.z, hi.z, MAX_COORDINATE)
}
