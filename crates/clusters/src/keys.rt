// The key of a surfel: the voxel it stands in, and the axis that its normal points along.
ghost use Rattle.std.specs.Prelude.{◌≡◌, ◌+◌, ◌*◌, ◌<◌, ◌≤◌, length};
ghost use Rattle.vector.specs.Flat.{vec_at};
ghost use Rattle.clusters.specs.Keys.{normal_bucket, per_unit, voxels_of, key_of};
ghost use Rattle.clusters.specs.Needs.{Resolved};
ghost use Rattle.clusters.specs.Grouping.{surfel_key};

use crate::surfels::Divided;
use crate::{Cut, Voxels};
use vector::Vec3;

// The axis along which n is longest, x before y before z where two are as long, and its sign: 0 and 1
// for x, 2 and 3 for y, 4 and 5 for z.
// Kept: a number, since it is a digit of the key, and document 01 gives the bucket of four normals so.
#[tactic(auto, unfolding(crate::specs::Keys::normal_bucket, vector::specs::Vector::absolutes))]
pub fn normal_bucket(n: Vec3) -> usize
    ensures { result ≡ normal_bucket n }
{
    let a = n.abs();
    if (a.x >= a.y) & (a.x >= a.z) {
        if n.x >= 0.0 { 0 } else { 1 }
    } else if a.y >= a.z {
        if n.y >= 0.0 { 2 } else { 3 }
    } else if n.z >= 0.0 {
        4
    } else {
        5
    }
}

// The voxels of a box that is cut.
#[tactic(auto, unfolding(crate::specs::Keys::voxels_of))]
pub fn voxels_of(cut: Cut) -> Voxels
    requires { cut.res ≤ 64 }
    ensures { result ≡ voxels_of cut.lo cut.hi cut.res }
{
    Voxels {
        lo: cut.lo,
        inv: Vec3 {
            x: per_unit(cut.res, cut.lo.x, cut.hi.x),
            y: per_unit(cut.res, cut.lo.y, cut.hi.y),
            z: per_unit(cut.res, cut.lo.z, cut.hi.z),
        },
        res: cut.res,
    }
}

// How many voxels a unit of length takes on an axis from lo to hi.
#[tactic(auto, unfolding(crate::specs::Keys::per_unit))]
fn per_unit(res: usize, lo: f32, hi: f32) -> f32
    requires { res ≤ 64 }
    ensures { result ≡ per_unit res lo hi }
{
    res as f32 / float::max(hi - lo, 0.000001)
}

// The key of a surfel at p with the normal n: in the order of keys x counts first, then y, then z,
// then the bucket of the normal.
#[tactic(auto, using(crate::proofs::Numbered::made_few, crate::proofs::Numbered::bucket_below), unfolding(crate::specs::Keys::key_of, vector::specs::Vector::minus))]
pub fn key_of(v: Voxels, p: Vec3, n: Vec3) -> usize
    requires { Resolved v }
    ensures { result ≡ key_of v p n }
{
    let off = p.minus(v.lo);
    let x = float::cell(off.x * v.inv.x, v.res);
    let y = float::cell(off.y * v.inv.y, v.res);
    let z = float::cell(off.z * v.inv.z, v.res);
    ((x * v.res + y) * v.res + z) * 6 + normal_bucket(n)
}

// The key of surfel i.
#[tactic(auto, unfolding(crate::specs::Grouping::surfel_key))]
pub fn surfel_key(d: &Divided, i: usize) -> usize
    requires { i < d.now.surfels.n }
    ensures { result ≡ surfel_key d.now.surfels d.now.voxels i }
{
    let s = &d.surfels;
    key_of(d.voxels, vector_at(s.p, i), vector_at(s.normals, i))
}

// The vector number i of a flat slice.
pub fn vector_at(s: &[f32], i: usize) -> Vec3
    requires { 3 * i + 2 < length s.now }
    ensures { result ≡ vec_at s.now i }
{
    let (vectors, _) = s.as_chunks::<3>();
    Vec3::from(vectors[i])
}
