// The surfels near a probe, weighed one after the other.
ghost use Rattle.std.specs.Prelude.{◌≡◌, ◌+◌, ◌*◌, ◌<◌, length};
ghost use Rattle.std.specs.List.{All};
ghost use Rattle.surfel.specs.Gathering.{surfel_at, weigh_all, gather};
ghost use Rattle.surfel.specs.Needs.{Named};

use crate::weighing::nothing;
use crate::{Probe, Reading, Surfel, Surfels, Weighed};
use accept::wide;
use grid::Fitted;
use std::marker::Model;
use vector::Vec3;

// Surfels in the grid of their points, as `check` hands them out: the grid's starts and items fit
// together, and each column has a vector for each of its points. The columns are cut into vectors.
#[derive(Drop)]
pub struct Gridded<'a> {
    pub grid: Fitted<'a>,
    pub surfels: &'a Surfels<'a>,
    pub p: &'a [[f32; 3]],
    pub normals: &'a [[f32; 3]],
    pub irr: &'a [[f32; 3]],
}

impl<'a> Model for Gridded<'a> {
    ghost use Rattle.surfel.specs.Gathering.{Gridded as Both, gridded_of};
    ghost use Rattle.surfel.specs.Needs.{Cut};

    ghost Value = { Both };

    ghost view = { λ t. gridded_of t.grid t.surfels.now };

    ghost invariant = { λ t. Cut t.grid t.surfels.now t.p.now t.normals.now t.irr.now };
}

impl Gridded<'_> {
    // The reading at the point `at` with this normal.
    pub fn read(&self, at: Vec3, normal: Vec3, radius: f32) -> Reading
        ensures { result ≡ gather self.now.grid self.now.surfels at normal radius }
    {
        let probe = Probe {
            p: at,
            n: normal,
            r2: radius * radius,
        };
        let mut sum = nothing();
        for row in self.grid.rows_near(at, 1) {
            sum = self.weigh_row(row, probe, sum);
        }
        sum.reading()
    }

    // The surfels of these numbers, weighed after those of `before`.
    fn weigh_row(&self, row: &[u32], probe: Probe, before: Weighed) -> Weighed
        requires { All (Named self.now.surfels) row.now }
        ensures { result ≡ weigh_all self.now.surfels probe before row.now }
    {
        let mut sum = before;
        for &number in row {
            sum = sum.with(probe, self.surfel_at(number));
        }
        sum
    }

    // The surfel number i.
    fn surfel_at(&self, i: u32) -> Surfel
        requires { Named self.now.surfels i }
        ensures { result ≡ surfel_at self.now.surfels i }
    {
        let place = wide(i);
        Surfel {
            p: Vec3::from(self.p[place]),
            n: Vec3::from(self.normals[place]),
            irr: Vec3::from(self.irr[place]),
        }
    }
}
