// Whether lent columns hold a room.
ghost use Rattle.std.specs.Prelude.{◌≡◌};
ghost use Rattle.room.specs.Lent.{columns_of};
ghost use Rattle.room.specs.Answers.{columns_hold};

use accept::{holds, wide};
use file::Counts;

// Whether each column holds its entries.
// Kept: the slices and not their lengths, since the contract names the columns once, as the entry's does.
#[tactic(auto, unfolding(crate::specs::Answers::columns_hold, crate::specs::Answers::surfels_hold, crate::specs::Answers::clusters_hold, crate::specs::Answers::rows_hold, crate::specs::Answers::probes_hold))]
pub fn columns_hold(
    c: Counts,
    p: &[f32],
    normals: &[f32],
    albedo: &[f32],
    area: &[f32],
    direct: &[f32],
    cluster_area: &[f32],
    first: &[u32],
    count: &[u32],
    member: &[u32],
    starts: &[u32],
    link_cluster: &[u32],
    link_weight: &[f32],
    probe_p: &[f32],
    probe_normals: &[f32],
) -> bool
    ensures { result
        ≡ columns_hold c
        (columns_of p.now normals.now albedo.now area.now direct.now cluster_area.now first.now count.now member.now starts.now
        link_cluster.now link_weight.now probe_p.now probe_normals.now) }
{
    let n = wide(c.surfels);
    let nc = wide(c.clusters);
    let links = wide(c.links);
    let probes = wide(c.probes);
    let surfels = holds(p.len(), n, 3)
        & holds(normals.len(), n, 3)
        & holds(albedo.len(), n, 3)
        & (n <= area.len())
        & holds(direct.len(), n, 3);
    let clusters = (nc <= cluster_area.len())
        & (nc <= first.len())
        & (nc <= count.len())
        & (wide(c.members) <= member.len());
    let rows = (n < starts.len()) & (links <= link_cluster.len()) & (links <= link_weight.len());
    let sites = holds(probe_p.len(), probes, 3) & holds(probe_normals.len(), probes, 3);
    surfels & clusters & rows & sites
}
