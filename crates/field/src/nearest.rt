// What is nearest to a point.
ghost use Rattle.std.specs.Prelude.{◌≡◌};
ghost use Rattle.sdf.specs.Distance.{dist as shape_dist};
ghost use Rattle.tables.specs.Tables.{prim_of, part_at};
ghost use Rattle.field.specs.Nearest.{part_dist, part_hit, nearer, nearest_part, dist_mat, dist};

use crate::DistHit;
use accept::wide;
use sdf::Shape;
use tables::{Part, Scene, part_at};
use vector::Vec3;

// The nearest of the scene's planes and objects, the earlier where two are as near; the greatest
// f32 and material 0 where nothing is nearer than that.
#[tactic(auto, unfolding(crate::specs::Nearest::dist_mat))]
pub fn dist_mat(scene: &Scene, p: Vec3) -> DistHit
    ensures { result ≡ dist_mat scene.now p }
{
    let far = DistHit {
        d: f32::MAX,
        mat: 0,
    };
    let best = nearest_part(scene, scene.plane_parts, scene.planes, p, far);
    nearest_part(scene, scene.object_parts, scene.objects, p, best)
}

// The distance to what is nearest.
pub fn dist(scene: &Scene, p: Vec3) -> f32
    ensures { result ≡ dist scene.now p }
{
    let near = dist_mat(scene, p);
    near.d
}

// The nearest of n parts and the best so far; a part that is surely no nearer is passed over.
#[tactic(auto, unfolding(crate::specs::Nearest::nearest_part, vector::specs::Fold::fold))]
fn nearest_part(scene: &Scene, parts: &[u32], n: usize, p: Vec3, first: DistHit) -> DistHit
    ensures { result ≡ nearest_part (prim_of scene.now) p first (part_at parts.now) n }
{
    let mut best = first;
    for j in 0..n {
        let part = part_at(parts, j);
        let base = scene.shape_at(wide(part.base));
        if !base.far(p, best.d) {
            best = nearer(best, part_hit(scene, p, part, base));
        }
    }
    best
}

// A part, whose base is this shape, as what may be nearest.
#[tactic(auto, unfolding(crate::specs::Nearest::part_hit))]
fn part_hit(scene: &Scene, p: Vec3, part: Part, base: Shape) -> DistHit
    requires { base ≡ prim_of scene.now part.base }
    ensures { result ≡ part_hit (prim_of scene.now) p part }
{
    DistHit {
        d: part_dist(scene, part, base, p),
        mat: part.mat,
    }
}

// The best, or the new one where its distance is strictly smaller.
#[tactic(auto, unfolding(crate::specs::Nearest::nearer))]
fn nearer(best: DistHit, new: DistHit) -> DistHit
    ensures { result ≡ nearer best new }
{
    if new.d < best.d { new } else { best }
}

// The distance to a part: its base, which is this shape, less what is subtracted.
#[tactic(auto, unfolding(crate::specs::Nearest::part_dist, vector::specs::Fold::fold))]
fn part_dist(scene: &Scene, part: Part, base: Shape, p: Vec3) -> f32
    requires { base ≡ prim_of scene.now part.base }
    ensures { result ≡ part_dist (prim_of scene.now) part p }
{
    let first = wide(part.first);
    let many = wide(part.many);
    let mut d = base.dist(p);
    for i in 0..many {
        d = float::max(d, -prim_dist(scene, first + i, p));
    }
    d
}

// The distance to primitive k.
fn prim_dist(scene: &Scene, k: usize, p: Vec3) -> f32
    ensures { result ≡ shape_dist (prim_of scene.now k) p }
{
    scene.shape_at(k).dist(p)
}
