// How open the hemisphere above a point is.
ghost use Rattle.std.specs.Prelude.{◌≡◌, ◌*◌, ◌<◌, ◌≤◌};
ghost use Rattle.vector.specs.Tangent.{frame};
ghost use Rattle.vector.specs.Vector.{vec, normalize};
ghost use Rattle.scene.specs.Directions.{float_of};
ghost use Rattle.scene.specs.Marching.{trace};
ghost use Rattle.scene.specs.Opening.{in_frame, offset, ray_start, counted, openings, hemisphere_closure};

use crate::marching::trace;
use crate::{Closure, Openings, Ray, Traced};
use float::of_bits;
use tables::Scene;
use vector::{Tangents, Vec3};

// The bits of the 16 directions: x, y, z each.
const DIRECTIONS: [[u32; 3]; 16] = [
    [0xbeb504f4, 0x3f1cc470, 0x3f3504f3],
    [0xbe7ffffd, 0xbeddb3d8, 0x3f5db3d7],
    [0x3f29d57e, 0x3f0e81f5, 0x3f000000],
    [0xbeaa1a41, 0x3df7a615, 0x3f6f7751],
    [0x3e0c9378, 0xbf474fa2, 0x3f1cc471],
    [0x3dd9c757, 0x3f1a62be, 0x3f4a62c2],
    [0xbf610645, 0xbea3cdf8, 0x3eb504f3],
    [0x3e441b86, 0xbe248db0, 0x3f77def6],
    [0x3f3ad31a, 0x3e311cee, 0x3f2953fd],
    [0xbec469f1, 0x3ed02fbd, 0x3f544395],
    [0xbe845cdd, 0xbf5d0fa7, 0x3eddb3d7],
    [0x3e84643b, 0x3eb1d52e, 0x3f66c15a],
    [0xbf52d429, 0x3dc52357, 0x3f0f1bbd],
    [0x3e86228b, 0xbf1b7ad1, 0x3f400000],
    [0xbd66997b, 0x3f77739a, 0x3e800000],
    [0xbe173d4c, 0xbdc6f189, 0x3f7bf7df],
];

// The part of 16 directions above p, spread about n, in which a ray meets nothing up to tmax.
pub fn hemisphere_closure(scene: &Scene, p: Vec3, n: Vec3, tmax: f32) -> Closure
    ensures { result ≡ hemisphere_closure scene.now p n tmax }
{
    let o = openings(scene, p, n, tmax);
    Closure {
        sky: o.missed as f32 / 16.0,
        evals: o.evals,
    }
}

// How many of the 16 rays meet nothing, and the evaluations of them all.
#[tactic(auto, unfolding(crate::specs::Opening::openings, vector::specs::Fold::fold))]
fn openings(scene: &Scene, p: Vec3, n: Vec3, tmax: f32) -> Openings
    ensures { result ≡ openings scene.now p n tmax 16 }
{
    let mut o = Openings::default();
    for bits in DIRECTIONS {
        o = o.counted(ray(scene, p, n, tmax, direction(bits)));
    }
    o
}

// What the ray in direction d about n meets, from a little way above p on.
#[tactic(auto, unfolding(crate::specs::Opening::ray_start))]
fn ray(scene: &Scene, p: Vec3, n: Vec3, tmax: f32, d: Vec3) -> Traced
    ensures { result ≡ trace scene.now (ray_start p n) (normalize (in_frame (frame n) n d)) offset tmax }
{
    let ray = Ray {
        ro: p.plus(n.scaled(1e-3)),
        rd: in_frame(vector::frame(n), n, d).normalize(),
        tmin: 1e-3,
        tmax,
    };
    trace(scene, ray)
}

impl Openings {
    // One ray more.
    // Kept: document 01 takes a hit or none apart by let else.
    #[tactic(auto, unfolding(crate::specs::Opening::counted, crate::specs::Opening::missed_by))]
    fn counted(self, r: Traced) -> Openings
        requires missed_bound { self.missed < 16 }
        requires evals_bound { self.evals ≤ 2112 }
        requires evals_bound_2 { r.evals ≤ 132 }
        ensures { result ≡ counted self r }
    {
        let Some(_) = r.found else {
            return Openings {
                missed: self.missed + 1,
                evals: self.evals + r.evals,
            };
        };
        Openings {
            missed: self.missed,
            evals: self.evals + r.evals,
        }
    }
}

// d's x along t, y along b and z along n.
#[tactic(auto, unfolding(crate::specs::Opening::in_frame))]
fn in_frame(f: Tangents, n: Vec3, d: Vec3) -> Vec3
    ensures { result ≡ in_frame f n d }
{
    f.t.scaled(d.x).plus(f.b.scaled(d.y)).plus(n.scaled(d.z))
}

// The direction of these bits, about z.
fn direction(bits: [u32; 3]) -> Vec3
    ensures { result ≡ vec (float_of bits 0) (float_of bits 1) (float_of bits 2) }
{
    let [x, y, z] = bits;
    Vec3 {
        x: of_bits(x),
        y: of_bits(y),
        z: of_bits(z),
    }
}
