// Clusters. It returns 0, or the number of the refusal and then writes nothing.
ghost use Rattle.std.specs.Prelude.{◌≡◌, length};
ghost use Rattle.vector.specs.Flat.{KeptFrom};
ghost use Rattle.vector.specs.Vector.{vec};
ghost use Rattle.clusters.specs.Lent.{surfels_in, columns_in, columns_out};
ghost use Rattle.clusters.specs.Answers.{scratch_open};
ghost use Rattle.outs.specs.Outs.{clustered_outs};
ghost use Rattle.interflect.specs.Rows.{interflect_build_clusters};

use crate::vectors::vec;
use clusters::{Columns, Cut, Surfels};

// Makes clusters of n surfels, by the voxel that each stands in, of res voxels on each axis of the
// box from lo to hi, and the axis that its normal points along: made becomes how many clusters there
// are, listed how many members they have in all. order and spare are scratch.
#[unsafe(no_mangle)]
pub extern "C" fn interflect_build_clusters(
    n: usize,
    p: &[f32],
    normals: &[f32],
    area: &[f32],
    lox: f32,
    loy: f32,
    loz: f32,
    hix: f32,
    hiy: f32,
    hiz: f32,
    res: usize,
    cluster_p: &mut [f32],
    cluster_n: &mut [f32],
    cluster_area: &mut [f32],
    cluster_radius: &mut [f32],
    first: &mut [u32],
    count: &mut [u32],
    members: &mut [u32],
    order: &mut [u32],
    spare: &mut [u32],
    made: &mut usize,
    listed: &mut usize,
) -> u32
    ensures members_value { (result, (clustered_outs made listed).exit, columns_out cluster_p cluster_n cluster_area cluster_radius first count members)
        ≡ interflect_build_clusters (surfels_in n p normals area) (vec lox loy loz) (vec hix hiy hiz) res (clustered_outs made listed).entry
        (columns_in cluster_p cluster_n cluster_area cluster_radius first count members) (length order.old) (length
        spare.old) }
    ensures kept_from { KeptFrom (scratch_open (surfels_in n p normals area) (vec lox loy loz) (vec hix hiy hiz) res
        (columns_in cluster_p cluster_n cluster_area cluster_radius first count members) (length order.old) (length
        spare.old)) order }
    ensures kept_from_2 { KeptFrom (scratch_open (surfels_in n p normals area) (vec lox loy loz) (vec hix hiy hiz) res
        (columns_in cluster_p cluster_n cluster_area cluster_radius first count members) (length order.old) (length
        spare.old)) spare }
{
    let surfels = Surfels {
        n,
        p,
        normals,
        area,
    };
    let cut = Cut {
        lo: vec(lox, loy, loz),
        hi: vec(hix, hiy, hiz),
        res,
    };
    let columns = Columns {
        p: cluster_p,
        n: cluster_n,
        area: cluster_area,
        radius: cluster_radius,
        first,
        count,
        member: members,
    };
    let answer = clusters::build_clusters(&surfels, cut, columns, order, spare);
    outs::tell_clustered(answer, made, listed)
}
