// What an accepted call makes its rows from.
ghost use Rattle.std.specs.Prelude.{◌≡◌, ◌+◌, ◌*◌, ◌<◌, length};
ghost use Rattle.formfactor.specs.Lent.{receiver_at, cluster_at};
ghost use Rattle.formfactor.specs.Needs.{EmittersHeld};

use crate::{Emitters, Surfels};
use clusters::Cluster;
use links::Receiver;
use std::marker::Model;
use tables::Scene;
use vector::Vec3;

// A scene, the diagonal of its bounds, and surfels and clusters whose columns hold as many as they
// say.
#[derive(Drop)]
pub struct Setting<'a> {
    pub scene: &'a Scene<'a>,
    pub diag: f32,
    pub surfels: &'a Surfels<'a>,
    pub emitters: &'a Emitters<'a>,
}

impl<'a> Model for Setting<'a> {
    ghost use Rattle.formfactor.specs.Lent.{Setting as LentSetting, setting_with};
    ghost use Rattle.formfactor.specs.Needs.{Held};

    ghost Value = { LentSetting };

    ghost view = { λ t. setting_with t.scene.now t.diag t.surfels.now t.emitters.now };

    ghost invariant = { λ t. Held (setting_with t.scene.now t.diag t.surfels.now t.emitters.now) };
}

impl Surfels<'_> {
    // Surfel i; its floats past the columns are NaN.
    pub(crate) fn receiver_at(&self, i: usize) -> Receiver
        ensures { result ≡ receiver_at self.now.p self.now.normals i }
    {
        Receiver {
            p: vector::at(self.p, i),
            n: vector::at(self.normals, i),
        }
    }
}

impl Emitters<'_> {
    // Cluster c.
    pub(crate) fn cluster_at(&self, c: usize) -> Cluster
        requires held { EmittersHeld self.now }
        requires c_lt_nc { c < self.now.nc }
        ensures { result ≡ cluster_at self.now c }
    {
        Cluster {
            p: vector::at(self.p, c),
            n: vector::at(self.n, c),
            area: self.area[c],
            radius: self.radius[c],
        }
    }
}
