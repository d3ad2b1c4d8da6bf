// How much of a light is seen.
ghost use Rattle.std.specs.Prelude.{◌≡◌, ◌+◌, ◌<◌};
ghost use Rattle.scene.specs.Shading.{approach, lowered, onward, soft_shadow};

use crate::{Approach, Ray, Shadow, ShadowMarch};
use field::dist;
use tables::Scene;
use vector::Vec3;

// How much of a light of tightness k is seen along the ray between tmin and tmax.
pub fn soft_shadow(scene: &Scene, ray: Ray, k: f32) -> Shadow
    ensures { result ≡ soft_shadow scene.now ray.ro ray.rd ray.tmin ray.tmax k }
{
    let mut m = ShadowMarch {
        res: 1.0,
        t: ray.tmin,
        ph: 1e20,
        steps: 0,
    };
    // Kept: document 01 has marching cursors as values, and this one counts its own samples.
    while m.steps < 96 && m.t < ray.tmax {
        let h = dist(scene, ray.at(m.t));
        if h < 1e-4 {
            return Shadow {
                visibility: 0.0,
                evals: m.steps + 1,
            };
        }
        let res = m.lowered(h, k);
        if res < 1e-3 {
            return Shadow {
                visibility: 0.0,
                evals: m.steps + 1,
            };
        }
        m = m.onward(h, res);
    }
    Shadow {
        visibility: float::clamp(m.res, 0.0, 1.0),
        evals: m.steps,
    }
}

impl ShadowMarch {
    // The visibility after a sample h.
    #[tactic(auto, unfolding(crate::specs::Shading::lowered))]
    fn lowered(self, h: f32, k: f32) -> f32
        ensures { result ≡ lowered self.res k h self.ph self.t }
    {
        let a = approach(h, self.ph);
        float::min(self.res, k * a.d / float::max(self.t - a.y, 1e-4))
    }

    // The cursor after the sample h, with the visibility that it left.
    #[tactic(auto, unfolding(crate::specs::Shading::onward))]
    fn onward(mut self, h: f32, res: f32) -> ShadowMarch
        requires { self.steps < 96 }
        ensures { result ≡ record { res = res; t = onward self.t h; ph = h; steps = self.steps + 1 } }
    {
        self.res = res;
        self.t = self.t + float::clamp(h, 0.006, 0.12);
        self.ph = h;
        self.steps = self.steps + 1;
        self
    }
}

// Where the ray came closest at a sample h after a sample ph: corrected while it approaches, else at
// the sample itself.
#[tactic(auto, unfolding(crate::specs::Shading::approach, crate::specs::Shading::closest_approach))]
fn approach(h: f32, ph: f32) -> Approach
    ensures { result ≡ approach h ph }
{
    if h < ph {
        let y = h * h / (2.0 * ph);
        Approach {
            y,
            d: float::sqrt(float::max(h * h - y * y, 0.0)),
        }
    } else {
        Approach { y: 0.0, d: h }
    }
}
