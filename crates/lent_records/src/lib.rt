// Four records by value, lent to their reset, for the replay programs.
//
// No public function has a `requires`.
#![tactic(auto)]

ghost use Rattle.std.specs.Prelude.{◌≡◌};
ghost use Rattle.records.specs.Columns.{left_in, reset_columns};

use accept::Refusal;
use records::Light;

// What a reset of four records answered, and the records as it left them.
#[derive(Clone, Copy)]
pub struct Four {
    pub answer: Result<(), Refusal>,
    pub records: [Light; 4],
}

// The reset of four records to this light.
pub fn reset_four(light: &[f32], given: [Light; 4]) -> Four
    ensures { left_in result.answer result.records ≡ reset_columns light.now given }
{
    let mut records = given;
    let answer = records::reset_records(light, &mut records);
    Four { answer, records }
}
