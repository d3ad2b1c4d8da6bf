// The solve.
ghost use Rattle.std.specs.Prelude.{◌≡◌};
ghost use Rattle.transfer.specs.Room.{light_in, light_out};
ghost use Rattle.solve.specs.Answers.{solve_answer};

use crate::SolveStats;
use crate::running::run;
use accept::Refusal;
use transfer::{Room, check};

// Bounces the light of the room's surfels until the last change is under 0.0001 or the limit is made,
// or refuses the call and then writes nothing. irr becomes the irradiance of the last bounce, rad the
// light that each surfel then gives off, and scratch, three floats a cluster, the clusters' light of
// the last bounce. If no bounce is made, all three stay as lent.
//
// Kept: irr, rad and scratch stay parameters. Each caller would make a struct of them for this call alone,
// and each function that takes it by `&mut` ensure that each of its fields keeps its `ghost_name`.
pub fn solve(
    room: &Room,
    limit: usize,
    irr: &mut [f32],
    rad: &mut [f32],
    scratch: &mut [f32],
) -> Result<SolveStats, Refusal>
    ensures { (result, light_out irr rad, scratch.new) ≡ solve_answer room.now limit (light_in irr rad) scratch.old }
{
    check(room, limit, irr.len(), rad.len(), scratch.len())?;
    Ok(run(room, limit, irr, rad, scratch))
}
