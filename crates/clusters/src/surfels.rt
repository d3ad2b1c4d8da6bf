// Surfels as they are lent, and those that were accepted with the voxels that they lie in.
ghost use Rattle.std.specs.Prelude.{◌≡◌, ◌≤◌};
ghost use Rattle.accept.specs.Limits.{max_surfels};
ghost use Rattle.clusters.specs.Needs.{Held};

use crate::Voxels;
use std::marker::Model;

// Surfels that are lent: how many, where they are, their normals and their areas. The columns may
// hold more than n.
// Kept: a count stands beside the slices, since C lends both and a slice may be longer or shorter.
#[derive(Drop)]
pub struct Surfels<'a> {
    pub n: usize,
    pub p: &'a [f32],
    pub normals: &'a [f32],
    pub area: &'a [f32],
}

impl<'a> Model for Surfels<'a> {
    ghost use Rattle.clusters.specs.Lent as lent;

    ghost Value = { lent.Surfels };

    ghost view = { λ s. record { n = s.n; p = s.p.now; normals = s.normals.now; area = s.area.now } };
}

impl<'a> Surfels<'a> {
    // The same surfels, lent on.
    pub fn lent(&self) -> Surfels<'a>
        ensures { result ≡ self.now }
    {
        Surfels {
            n: self.n,
            p: self.p,
            normals: self.normals,
            area: self.area,
        }
    }
}

// Surfels whose columns hold them, and the voxels that they lie in.
#[derive(Drop)]
pub struct Divided<'a> {
    pub surfels: Surfels<'a>,
    pub voxels: Voxels,
    ghost held: { Held surfels voxels },
}

impl Divided<'_> {
    // How many surfels there are.
    pub fn len(&self) -> usize
        ensures value { result ≡ self.now.surfels.n }
        ensures few { result ≤ max_surfels }
    {
        self.surfels.n
    }
}
