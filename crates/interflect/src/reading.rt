// A room file read. It returns 0, or the number of the refusal and then writes nothing.
ghost use Rattle.std.specs.Prelude.{◌≡◌};
ghost use Rattle.room.specs.Lent.{columns_in, columns_out};
ghost use Rattle.interflect.specs.Reading.{interflect_room_read};

// Reads the room that the bytes of a file hold into these columns, and what stands beside them: counts
// becomes how many surfels, clusters, members, links and probes there are and the limit of bounces,
// sizes lo, hi, the side of a cell and the radius.
#[unsafe(no_mangle)]
pub extern "C" fn interflect_room_read(
    bytes: &[u8],
    p: &mut [f32],
    normals: &mut [f32],
    albedo: &mut [f32],
    area: &mut [f32],
    direct: &mut [f32],
    cluster_area: &mut [f32],
    first: &mut [u32],
    count: &mut [u32],
    member: &mut [u32],
    starts: &mut [u32],
    link_cluster: &mut [u32],
    link_weight: &mut [f32],
    probe_p: &mut [f32],
    probe_normals: &mut [f32],
    counts: &mut [usize; 6],
    sizes: &mut [f32; 8],
) -> u32
    ensures { (
      result,
      counts.new,
      sizes.new,
      columns_out p normals albedo area direct cluster_area first count member starts link_cluster link_weight probe_p probe_normals,
    )
        ≡ interflect_room_read bytes.now counts.old sizes.old
        (columns_in p normals albedo area direct cluster_area first count member starts link_cluster link_weight probe_p probe_normals) }
{
    let answer = room::room_read(
        bytes,
        p,
        normals,
        albedo,
        area,
        direct,
        cluster_area,
        first,
        count,
        member,
        starts,
        link_cluster,
        link_weight,
        probe_p,
        probe_normals,
    );
    outs::tell_head(answer, counts, sizes)
}
