// A ray marched to what it meets.
ghost use Rattle.std.specs.Prelude.{◌≡◌, ◌+◌, ◌<◌, Some};
ghost use Rattle.float.specs.Arithmetic.{◌+f◌};
ghost use Rattle.field.specs.Gradient.{normal};
ghost use Rattle.scene.specs.Marching.{along, tolerance, trace};

use crate::{Hit, March, Ray, Traced};
use field::{DistHit, dist_mat, normal};
use tables::Scene;
use vector::Vec3;

// What the ray meets first: it is sampled at tmin, then on by each distance, until a distance is
// within the tolerance, t passes tmax, or 128 samples are made.
pub fn trace(scene: &Scene, ray: Ray) -> Traced
    ensures { result ≡ trace scene.now ray.ro ray.rd ray.tmin ray.tmax }
{
    let mut m = March {
        t: ray.tmin,
        steps: 0,
    };
    // Kept: document 01 has marching cursors as values, and this one counts its own samples.
    while m.steps < 128 {
        let p = ray.at(m.t);
        let h = dist_mat(scene, p);
        if h.d < tolerance(m.t) {
            return hit(scene, m, p, h);
        }
        m = m.ahead(h.d);
        if m.t > ray.tmax {
            break;
        }
    }
    Traced {
        found: None,
        evals: m.steps,
    }
}

// The hit at p of a ray whose cursor is m, where h is what is nearest: its sample and the four
// taps of the normal are counted.
fn hit(scene: &Scene, m: March, p: Vec3, h: DistHit) -> Traced
    requires { m.steps < 128 }
    ensures { result ≡ record { found = Some (record { t = m.t; p = p; n = normal scene.now p; mat = h.mat }); evals = m.steps + 5 } }
{
    Traced {
        found: Some(Hit {
            t: m.t,
            p,
            n: normal(scene, p),
            mat: h.mat,
        }),
        evals: m.steps + 5,
    }
}

impl Ray {
    // The ray's point at t.
    #[tactic(auto, unfolding(crate::specs::Marching::along))]
    pub fn at(self, t: f32) -> Vec3
        ensures { result ≡ along self.ro self.rd t }
    {
        self.ro.plus(self.rd.scaled(t))
    }
}

// What a distance must be below to be a hit: 0.0001, and beyond t = 1 that times t.
#[tactic(auto, unfolding(crate::specs::Marching::tolerance))]
fn tolerance(t: f32) -> f32
    ensures { result ≡ tolerance t }
{
    1e-4 * float::max(t, 1.0)
}

impl March {
    // The cursor after one sample more, on by its distance.
    fn ahead(mut self, d: f32) -> March
        requires { self.steps < 128 }
        ensures { result ≡ record { t = self.t +f d; steps = self.steps + 1 } }
    {
        self.t = self.t + d;
        self.steps = self.steps + 1;
        self
    }
}
