// Each group of surfels as one emitter.
ghost use Rattle.std.specs.Prelude.{◌≡◌, ◌*◌, ◌<◌, ◌≤◌, length};
ghost use Rattle.vector.specs.Flat.{written, filled};
ghost use Rattle.clusters.specs.Grouping.{normal_from, cluster_from};
ghost use Rattle.clusters.specs.Made.{InRange, cluster_of};

use crate::grouping::sum_members;
use crate::surfels::Divided;
use crate::{Cluster, Sums};
use accept::wide;
use vector::{Vec3, put};

// Groups that were stored: how many, where the members of each begin, how many members each has, and
// the members.
#[derive(Drop)]
pub struct Groups<'a> {
    pub made: usize,
    pub first: &'a [u32],
    pub count: &'a [u32],
    pub member: &'a [u32],
}

// The clusters of groups, to the first places of the four columns.
pub fn aggregate(
    d: &Divided,
    groups: &Groups,
    p: &mut [f32],
    n: &mut [f32],
    area: &mut [f32],
    radius: &mut [f32],
)
    requires ranged { InRange d.now.surfels groups.now }
    requires p_in_bounds { 3 * groups.now.made ≤ length p.old }
    requires n_in_bounds { 3 * groups.now.made ≤ length n.old }
    requires area_in_bounds { groups.now.made ≤ length area.old }
    requires radius_in_bounds { groups.now.made ≤ length radius.old }
    ensures p_after { p.new ≡ written (λ k. (cluster_of d.now.surfels groups.now k).p) groups.now.made p.old }
    ensures n_after { n.new ≡ written (λ k. (cluster_of d.now.surfels groups.now k).n) groups.now.made n.old }
    ensures area_after { area.new ≡ filled (λ k. (cluster_of d.now.surfels groups.now k).area) groups.now.made area.old }
    ensures radius_after { radius.new ≡ filled (λ k. (cluster_of d.now.surfels groups.now k).radius) groups.now.made radius.old }
{
    for k in 0..groups.made {
        let c = cluster_of(d, groups, k);
        put(p, k, c.p);
        put(n, k, c.n);
        area[k] = c.area;
        radius[k] = c.radius;
    }
}

// The cluster of group k.
fn cluster_of(d: &Divided, groups: &Groups, k: usize) -> Cluster
    requires ranged { InRange d.now.surfels groups.now }
    requires k_lt_made { k < groups.now.made }
    ensures { result ≡ cluster_of d.now.surfels groups.now k }
{
    let from = wide(groups.first[k]);
    let to = from + wide(groups.count[k]);
    cluster_from(sum_members(d, &groups.member[from..to]))
}

// The cluster from the sums of its members: the radius is that of a disc with its area.
#[tactic(auto, unfolding(crate::specs::Grouping::cluster_from))]
fn cluster_from(t: Sums) -> Cluster
    ensures { result ≡ cluster_from t }
{
    Cluster {
        p: t.p.over(t.area),
        n: normal_from(t.n),
        area: t.area,
        radius: float::sqrt(t.area / std::f32::consts::PI),
    }
}

// The normal from summed normals; y where they all but cancel.
#[tactic(auto, unfolding(crate::specs::Grouping::normal_from))]
fn normal_from(n: Vec3) -> Vec3
    ensures { result ≡ normal_from n }
{
    if n.length_squared() > 1e-12 {
        n.normalize()
    } else {
        Vec3 {
            x: 0.0,
            y: 1.0,
            z: 0.0,
        }
    }
}
