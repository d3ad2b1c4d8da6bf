// How much a surfel counts at a probe, and what the weighed surfels say.
ghost use Rattle.std.specs.Prelude.{◌≡◌};
ghost use Rattle.surfel.specs.Weighing.{weight, weigh, reading, nothing};

use crate::{Probe, Reading, Surfel, Weighed};
use vector::Vec3;

impl Weighed {
    // With the surfel s, if it counts at the probe: it lies within the radius, and its normal's dot
    // product with the probe's is over 0.15.
    pub fn with(self, probe: Probe, s: Surfel) -> Weighed
        ensures { result ≡ weigh probe self s }
    {
        let d2 = s.p.minus(probe.p).length_squared();
        let align = s.n.dot(probe.n);
        if d2 <= probe.r2 {
            if align > 0.15 {
                let w = weight(d2, probe.r2, align);
                return Weighed {
                    light: self.light.plus(s.irr.scaled(w)),
                    weight: self.weight + w,
                };
            }
        }
        self
    }

    // The light where the weights' sum exceeds 0.000001, else unseen.
    pub fn reading(self) -> Reading
        ensures { result ≡ reading self }
    {
        if self.weight > 0.000001 {
            Reading::Seen(self.light.over(self.weight))
        } else {
            Reading::Unseen
        }
    }
}

// No surfel weighed.
// Kept: `Vec3::zero` says the light's zero; a derived Default would want one of `Vec3`, which says less.
pub fn nothing() -> Weighed
    ensures { result ≡ nothing }
{
    Weighed {
        light: Vec3::zero(),
        weight: 0.0,
    }
}

// What a surfel at the squared distance d2 weighs, where align is the dot product of the normals.
#[tactic(auto, unfolding(crate::specs::Weighing::weight))]
fn weight(d2: f32, r2: f32, align: f32) -> f32
    ensures { result ≡ weight d2 r2 align }
{
    let t = 1.0 - d2 / r2;
    t * t * align
}
