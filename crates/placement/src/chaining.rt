// The points kept in each cell, as chains from the last to the first: head has for each cell the
// number of its last point and one more, next for each point that of the one before it in its cell;
// 0 ends a chain.
ghost use Rattle.std.specs.Prelude.{◌≡◌, ◌+◌, ◌*◌, ◌<◌, length};
ghost use Rattle.accept.specs.Limits.{max_surfels};
ghost use Rattle.vector.specs.Flat.{KeptFrom, vec_at};
ghost use Rattle.grid.specs.Cells.{cells};
ghost use Rattle.placement.specs.Kept.{dims_in, closer};
ghost use Rattle.placement.specs.Chains.{Chains, key_of, vacant};

use crate::layout::block_near;
use accept::wide;
use seeds::Spacing;
use vector::Vec3;

// The points kept so far, the first `count` of p, and their chains.
// Kept: lent anew for each seed, to be read: tried as one value whose slices are written; its ghost field
// must hold at each write, and one point more writes `head` and `count` in turn (`invariant_of-self`).
#[derive(Drop)]
pub struct Kept<'a> {
    pub s: Spacing,
    pub count: usize,
    pub p: &'a [f32],
    pub head: &'a [u32],
    pub next: &'a [u32],
    ghost chained: { Chains s count p.now head.now next.now },
}

impl Kept<'_> {
    // Whether none of them in cell c is too close to `at`.
    // Kept: the loop follows a chain through `next`, which no range of numbers gives.
    pub fn vacant(&self, c: usize, at: Vec3) -> bool
        requires { c < cells (dims_in self.now.s) }
        ensures { result ≡ vacant (key_of self.now.s (vec_at self.now.p.now)) (λ j. closer self.now.s at (vec_at self.now.p.now j)) c self.now.count }
    {
        let mut link = wide(self.head[c]);
        while let Some(j) = link.checked_sub(1) {
            if closer(self.s, at, vector::at(self.p, j)) {
                return false;
            }
            link = wide(self.next[j]);
        }
        true
    }
}

// Whether q is closer to p than surfels may lie.
#[tactic(auto, unfolding(crate::specs::Kept::closer))]
fn closer(s: Spacing, p: Vec3, q: Vec3) -> bool
    ensures { result ≡ closer s p q }
{
    q.minus(p).length_squared() < s.d_min * s.d_min
}

// Puts the point number `count`, which lies at `at`, into the chain of its cell.
pub fn chain(s: Spacing, count: usize, p: &[f32], head: &mut [u32], next: &mut [u32], at: Vec3)
    requires count_lt_max_surfels { count < max_surfels }
    requires count_in_bounds { 3 * count + 2 < length p.now }
    requires count_in_bounds_2 { count < length next.old }
    requires at_value { at ≡ vec_at p.now count }
    requires chains { Chains s count p.now head.old next.old }
    ensures chains_2 { Chains s (count + 1) p.now head.new next.new }
    ensures kept_from { KeptFrom (cells (dims_in s)) head }
    ensures kept_from_2 { KeptFrom (count + 1) next }
{
    let own = block_near(s, at, 0);
    let c = own.first;
    next[count] = head[c];
    head[c] = (count + 1) as u32;
}
