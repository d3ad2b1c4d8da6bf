// The groups of surfels with one key, from their numbers in the order of the keys: where each
// begins, how many members it has, and the members. Groups with almost no area are left out.
ghost use Rattle.std.specs.Prelude.{◌≡◌, ◌<◌, ◌≤◌, length};
ghost use Rattle.accept.specs.Tables.{number_at};
ghost use Rattle.clusters.specs.Grouping.{surfel_key, groups, added, summed};
ghost use Rattle.clusters.specs.Needs.{AllBelow, Numbers, Sorted};
ghost use Rattle.clusters.specs.Needs.{clustered_of, first_left, count_left, member_left};
ghost use Rattle.clusters.specs.Sorting.{Run};

use crate::keys::{surfel_key, vector_at};
use crate::surfels::Divided;
use crate::{Clustered, Sums};
use accept::wide;
use vector::{Vec3, put_all};

// The groups, and how many they are: first has where the members of each begin, count how many it
// has.
pub fn group(
    d: &Divided,
    order: &[u32],
    first: &mut [u32],
    count: &mut [u32],
    members: &mut [u32],
) -> Clustered
    requires sorted { Sorted d.now.surfels d.now.voxels order.now }
    requires first_in_bounds { d.now.surfels.n ≤ length first.old }
    requires count_in_bounds { d.now.surfels.n ≤ length count.old }
    requires members_in_bounds { d.now.surfels.n ≤ length members.old }
    ensures value { result ≡ clustered_of (groups d.now.surfels d.now.voxels) }
    ensures first_after { first.new ≡ first_left (groups d.now.surfels d.now.voxels) first.old }
    ensures count_after { count.new ≡ count_left (groups d.now.surfels d.now.voxels) count.old }
    ensures members_after { members.new ≡ member_left (groups d.now.surfels d.now.voxels) members.old }
{
    let n = d.len();
    let mut at = 0;
    let mut k = 0;
    let mut w = 0;
    // Kept: a turn ends where a run of equal keys does; the library's `chunk_by` compares neighbours, so that
    // it would make each key twice.
    while at < n {
        let end = run_end(d, order, at);
        let run = &order[at..end];
        if !(sum_members(d, run).area <= 1e-12) {
            first[k] = w as u32;
            count[k] = run.len() as u32;
            put_all(members, w, run);
            k += 1;
            w += run.len();
        }
        at = end;
    }
    Clustered {
        clusters: k,
        members: w,
    }
}

// Where the run of the key at place `at` ends.
fn run_end(d: &Divided, order: &[u32], at: usize) -> usize
    requires numbers { Numbers d.now.surfels.n order.now }
    requires at_lt_n { at < d.now.surfels.n }
    ensures { Run (λ k. surfel_key d.now.surfels d.now.voxels (number_at order.now k)) d.now.surfels.n at result }
{
    let n = d.len();
    let c = surfel_key(d, wide(order[at]));
    order[at + 1..n]
        .iter()
        .position(|i| surfel_key(d, wide(*i)) != c)
        .map_or(n, |k| at + 1 + k)
}

// The sums of members, in their order.
pub fn sum_members(d: &Divided, members: &[u32]) -> Sums
    requires { AllBelow d.now.surfels.n members.now }
    ensures { result ≡ summed d.now.surfels members.now }
{
    let mut t = Sums {
        p: Vec3::zero(),
        n: Vec3::zero(),
        area: 0.0,
    };
    for i in members {
        t = add_member(d, t, wide(*i));
    }
    t
}

// The sums with surfel i too: its place and its normal count by its area.
#[tactic(auto, unfolding(crate::specs::Grouping::added))]
fn add_member(d: &Divided, t: Sums, i: usize) -> Sums
    requires { i < d.now.surfels.n }
    ensures { result ≡ added d.now.surfels t i }
{
    let s = &d.surfels;
    let a = s.area[i];
    Sums {
        p: t.p.plus(vector_at(s.p, i).scaled(a)),
        n: t.n.plus(vector_at(s.normals, i).scaled(a)),
        area: t.area + a,
    }
}
