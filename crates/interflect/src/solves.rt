// The solve and the reset. Each returns 0, or the number of the refusal and then writes nothing.
ghost use Rattle.std.specs.Prelude.{◌≡◌};
ghost use Rattle.transfer.specs.Room.{room_in, light_in, light_out};
ghost use Rattle.outs.specs.Outs.{stats_outs};
ghost use Rattle.interflect.specs.Solves.{records_left, interflect_solve, interflect_reset, interflect_reset_records};

use accept::refusal_number;
use records::Light;
use transfer::{Clusters, Room, Rows};

// Bounces the light of n surfels until the last change is under 0.0001 or the limit is made:
// bounces becomes how many were made, change the greatest absolute step of any channel of rad in
// the last of them, 0 if none was made.
#[unsafe(no_mangle)]
pub extern "C" fn interflect_solve(
    n: usize,
    nc: usize,
    members: usize,
    links: usize,
    limit: usize,
    albedo: &[f32],
    area: &[f32],
    direct: &[f32],
    cluster_area: &[f32],
    first: &[u32],
    count: &[u32],
    member: &[u32],
    starts: &[u32],
    link_cluster: &[u32],
    link_weight: &[f32],
    irr: &mut [f32],
    rad: &mut [f32],
    scratch: &mut [f32],
    bounces: &mut usize,
    change: &mut f32,
) -> u32
    ensures { (result, (stats_outs bounces change).exit, light_out irr rad, scratch.new)
        ≡ interflect_solve (room_in n nc members links albedo area direct cluster_area first count member starts link_cluster link_weight) limit
        (stats_outs bounces change).entry (light_in irr rad) scratch.old }
{
    let room = Room {
        n,
        albedo,
        area,
        direct,
        clusters: Clusters {
            nc,
            members,
            area: cluster_area,
            first,
            count,
            member,
        },
        rows: Rows {
            links,
            starts,
            cluster: link_cluster,
            weight: link_weight,
        },
    };
    let answer = solve::solve(&room, limit, irr, rad, scratch);
    outs::tell_solved(answer, bounces, change)
}

// Sets direct and rad to the given light and irr to zero.
#[unsafe(no_mangle)]
pub extern "C" fn interflect_reset(
    light: &[f32],
    direct: &mut [f32],
    irr: &mut [f32],
    rad: &mut [f32],
) -> u32
    ensures { (result, direct.new, irr.new, rad.new)
        ≡ interflect_reset light.now direct.old irr.old rad.old }
{
    refusal_number(reset::reset(light, direct, irr, rad))
}

// Sets direct and rad of each record to the given light, three floats a record, and irr to zero.
#[unsafe(no_mangle)]
pub extern "C" fn interflect_reset_records(light: &[f32], records: &mut [Light]) -> u32
    ensures { records_left result records.new ≡ interflect_reset_records light.now records.old }
{
    refusal_number(records::reset_records(light, records))
}
