// The light of surfels before the first bounce.
ghost use Rattle.std.specs.Prelude.{◌≡◌};
ghost use Rattle.reset.specs.Resetting.{lists_within, lengths_equal, check, reset_answer};

use accept::limits::{MAX_AMOUNT, MAX_SURFELS};
use accept::{Refusal, at_most, floats_within, require};
use vector::put_all;

// Sets direct and rad to the given light and irr to zero, three floats a surfel in each list, or
// refuses the call and then writes nothing.
pub fn reset(
    light: &[f32],
    direct: &mut [f32],
    irr: &mut [f32],
    rad: &mut [f32],
) -> Result<(), Refusal>
    ensures { (result, direct.new, irr.new, rad.new)
        ≡ reset_answer light.now direct.old irr.old rad.old }
{
    check(light, direct.len(), irr.len(), rad.len())?;
    put_all(direct, 0, light);
    irr.fill(0.0);
    put_all(rad, 0, light);
    Ok(())
}

// Why a reset to this light of lists of these lengths is refused, if it is.
#[tactic(auto, unfolding(crate::specs::Resetting::check, accept::specs::Refusal::checked))]
pub fn check(light: &[f32], direct: usize, irr: usize, rad: usize) -> Result<(), Refusal>
    ensures { result ≡ check light.now direct irr rad }
{
    let n = light.len();
    require(lists_within(n, direct, irr, rad), Refusal::Count)?;
    require(lengths_equal(n, direct, irr, rad), Refusal::Length)?;
    require(floats_within(light, n, 1, 0.0, MAX_AMOUNT), Refusal::Float)
}

// Whether no list has more floats than the most surfels take.
// Kept: lengths, since the reset of records has no lists to hand in.
fn lists_within(light: usize, direct: usize, irr: usize, rad: usize) -> bool
    ensures { result ≡ lists_within light direct irr rad }
{
    let most = 3 * MAX_SURFELS;
    at_most(light, most) & at_most(direct, most) & at_most(irr, most) & at_most(rad, most)
}

// Whether the lists are of one length, a multiple of three.
fn lengths_equal(light: usize, direct: usize, irr: usize, rad: usize) -> bool
    ensures { result ≡ lengths_equal light direct irr rad }
{
    (light % 3 == 0) & (direct == light) & (irr == light) & (rad == light)
}
