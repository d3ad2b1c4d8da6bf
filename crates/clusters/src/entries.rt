// The public entry: it answers why the call is refused and then writes nothing, or makes the clusters.
ghost use Rattle.std.specs.Prelude.{◌≡◌, length};
ghost use Rattle.vector.specs.Flat.{KeptFrom};
ghost use Rattle.clusters.specs.Answers.{build_clusters_answer, scratch_open};
ghost use Rattle.clusters.specs.Left.{columns_held, columns_after};

use crate::aggregating::{Groups, aggregate};
use crate::checks::check;
use crate::columns::{Columns, Lengths};
use crate::grouping::group;
use crate::keys::voxels_of;
use crate::sorting::sort;
use crate::surfels::{Divided, Surfels};
use crate::{Clustered, Cut};
use accept::Refusal;

// Makes clusters of surfels: those of one voxel, of those that the box is cut into, whose normals are
// in one bucket. The clusters stand by ascending voxel x, y, z and bucket, and each one's members
// ascend.
pub fn build_clusters(
    surfels: &Surfels,
    cut: Cut,
    columns: Columns<'_>,
    order: &mut [u32],
    spare: &mut [u32],
) -> Result<Clustered, Refusal>
    ensures columns_value { (result, columns_after columns.exit)
        ≡ build_clusters_answer surfels.now cut.lo cut.hi cut.res (columns_held columns.entry) (length order.old) (length spare.old) }
    ensures kept_from { KeptFrom (scratch_open surfels.now cut.lo cut.hi cut.res (columns_held columns.entry) (length order.old) (length
        spare.old)) order }
    ensures kept_from_2 { KeptFrom (scratch_open surfels.now cut.lo cut.hi cut.res (columns_held columns.entry) (length order.old) (length
        spare.old)) spare }
{
    let Columns {
        p,
        n,
        area,
        radius,
        first,
        count,
        member,
    } = columns;
    let lengths = Lengths {
        p: p.len(),
        n: n.len(),
        area: area.len(),
        radius: radius.len(),
        first: first.len(),
        count: count.len(),
        member: member.len(),
        order: order.len(),
        spare: spare.len(),
    };
    check(surfels, cut, lengths)?;
    let divided = Divided {
        surfels: surfels.lent(),
        voxels: voxels_of(cut),
    };
    sort(&divided, order, spare);
    let made = group(&divided, order, first, count, member);
    let groups = Groups {
        made: made.clusters,
        first,
        count,
        member,
    };
    aggregate(&divided, &groups, p, n, area, radius);
    Ok(made)
}
