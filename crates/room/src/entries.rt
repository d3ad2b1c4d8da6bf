// The reading of a room file.
ghost use Rattle.std.specs.Prelude.{◌≡◌};
ghost use Rattle.room.specs.Lent.{columns_in, columns_out};
ghost use Rattle.room.specs.Answers.{room_read_answer};

use crate::Head;
use crate::lengths::columns_hold;
use accept::Refusal;
use accept::limits::MAX_FILE;
use file::RoomFile;

// Reads the room that the bytes of a file hold into these columns, at the front of each, or refuses
// the file and then writes nothing. Surfels have three floats of p, normals, albedo and direct and one
// of area; clusters one of area and their range of members; starts has one number more than surfels;
// links have a cluster and a weight; probes three floats of each.
//
// Kept: fourteen slices, as C lends them. Each caller would make a struct of them for this call alone, and
// each function that takes it by `&mut` ensure that each of its fourteen fields keeps its `ghost_name`.
pub fn room_read(
    bytes: &[u8],
    p: &mut [f32],
    normals: &mut [f32],
    albedo: &mut [f32],
    area: &mut [f32],
    direct: &mut [f32],
    cluster_area: &mut [f32],
    first: &mut [u32],
    count: &mut [u32],
    member: &mut [u32],
    starts: &mut [u32],
    link_cluster: &mut [u32],
    link_weight: &mut [f32],
    probe_p: &mut [f32],
    probe_normals: &mut [f32],
) -> Result<Head, Refusal>
    ensures { (
      result,
      columns_out p normals albedo area direct cluster_area first count member starts link_cluster link_weight probe_p
          probe_normals,
    )
        ≡ room_read_answer bytes.now
        (columns_in p normals albedo area direct cluster_area first count member starts link_cluster link_weight probe_p probe_normals) }
{
    let file = RoomFile::new(bytes);
    let lent = columns_hold(
        file.counts(),
        p,
        normals,
        albedo,
        area,
        direct,
        cluster_area,
        first,
        count,
        member,
        starts,
        link_cluster,
        link_weight,
        probe_p,
        probe_normals,
    );
    file.check(MAX_FILE, lent)?;
    file.read_points(p, normals);
    file.read_surfaces(albedo, area, direct);
    file.read_clusters(cluster_area, first, count, member);
    file.read_rows(starts, link_cluster, link_weight);
    file.read_probes(probe_p, probe_normals);
    Ok(Head {
        counts: file.counts(),
        bounds: file.probe_box(),
    })
}
