// Seeds tried one after the other, and the points that are kept.
ghost use Rattle.std.specs.Prelude.{◌≡◌, ◌+◌, ◌*◌, ◌<◌, ◌≤◌, length};
ghost use Rattle.accept.specs.Limits.{max_surfels};
ghost use Rattle.vector.specs.Flat.{KeptFrom};
ghost use Rattle.grid.specs.Cells.{cells};
ghost use Rattle.seeds.specs.Seeds.{landed};
ghost use Rattle.placement.specs.Kept.{dims_in, seed_count};
ghost use Rattle.placement.specs.Chains.{Chains, tried, points_left};
ghost use Rattle.placement.specs.Needs.{Held};

use crate::Request;
use crate::chaining::{Kept, chain};
use crate::layout::cells;
use order::clear;
use seeds::{Spacing, landed};
use tables::Scene;
use vector::put;

// The points of at most `target` surfels, from the front of p on; how many there are.
pub fn place(
    request: &Request,
    s: Spacing,
    p: &mut [f32],
    head: &mut [u32],
    next: &mut [u32],
) -> usize
    requires { Held s request.now.target p.old head.old next.old }
    ensures p_after { (result, p.new)
        ≡ points_left request.now.scene s request.now.target p.old }
    ensures kept_from { KeptFrom (cells (dims_in s)) head }
    ensures kept_from_2 { KeptFrom request.now.target next }
{
    clear(head, cells(s));
    let mut count = 0;
    for i in 0..seed_count(request.target) {
        if count == request.target {
            return count;
        }
        count = try_seed(&request.scene, s, i + 1, count, p, head, next);
    }
    count
}

// How many seeds are tried.
#[tactic(auto, unfolding(crate::specs::Kept::seed_count))]
fn seed_count(target: usize) -> u32
    requires { target ≤ max_surfels }
    ensures { result ≡ seed_count target }
{
    (target * 24).min(6_000_000) as u32
}

// Keeps the point of seed number i after the first `count` of p, where it lands and there is room for
// it; how many are kept then.
fn try_seed(
    scene: &Scene,
    s: Spacing,
    i: u32,
    count: usize,
    p: &mut [f32],
    head: &mut [u32],
    next: &mut [u32],
) -> usize
    requires count_lt_max_surfels { count < max_surfels }
    requires count_in_bounds { 3 * count + 2 < length p.old }
    requires count_in_bounds_2 { count < length next.old }
    requires chains { Chains s count p.old head.old next.old }
    ensures p_after { (result, p.new)
        ≡ tried s count p.old (landed scene.now s i) }
    ensures chains_2 { Chains s result p.new head.new next.new }
    ensures kept_from { KeptFrom (cells (dims_in s)) head }
    ensures kept_from_2 { KeptFrom (count + 1) next }
{
    let Some(at) = landed(scene, s, i) else {
        return count;
    };
    let kept = Kept {
        s,
        count,
        p,
        head,
        next,
    };
    if kept.free(at) {
        put(p, count, at);
        chain(s, count, p, head, next, at);
        count + 1
    } else {
        count
    }
}
