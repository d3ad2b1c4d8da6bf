// The light of surfels before the first bounce, in a lent list of records.
ghost use Rattle.std.specs.Prelude.{◌≡◌};
ghost use Rattle.records.specs.Columns.{left_in, reset_columns};
ghost use Rattle.records.specs.Needs.{check_for, light_at};

use crate::Light;
use accept::limits::MAX_SURFELS;
use accept::{Refusal, require};
use vector::Vec3;

// Sets direct and rad of each record to the given light, three floats a record, and irr to zero, or
// refuses the call and then writes nothing.
pub fn reset_records(light: &[f32], records: &mut [Light]) -> Result<(), Refusal>
    ensures { left_in result records.new ≡ reset_columns light.now records.old }
{
    check(light, records.len())?;
    for (i, record) in records.iter_mut().enumerate() {
        *record = light_at(light, i);
    }
    Ok(())
}

// Why a reset to this light of n records is refused, if it is.
fn check(light: &[f32], n: usize) -> Result<(), Refusal>
    ensures { result ≡ check_for light.now n }
{
    require(n <= MAX_SURFELS, Refusal::Count)?;
    reset::check(light, 3 * n, 3 * n, 3 * n)
}

// Record number i of a reset to this light.
#[tactic(auto, unfolding(crate::specs::Needs::light_at))]
fn light_at(light: &[f32], i: usize) -> Light
    ensures { result ≡ light_at light.now i }
{
    let given = vector::at(light, i);
    let none = Vec3::zero();
    Light {
        direct: given,
        irr: none,
        rad: given,
    }
}
