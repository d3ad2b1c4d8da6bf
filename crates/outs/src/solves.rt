// What a solve answered, told through references.
ghost use Rattle.std.specs.Prelude.{◌≡◌};
ghost use Rattle.outs.specs.Outs.{left, stats_outs};

use accept::Refusal;
use solve::SolveStats;

// The number that a solve was refused with, or 0 with what it made written through references.
pub fn tell_solved(
    answer: Result<SolveStats, Refusal>,
    bounces: &mut usize,
    change: &mut f32,
) -> u32
    ensures { (result, (stats_outs bounces change).exit) ≡ left answer (stats_outs bounces change).entry }
{
    match answer {
        Ok(made) => {
            *bounces = made.bounces;
            *change = made.change;
            0
        }
        Err(refusal) => u32::from(refusal),
    }
}
