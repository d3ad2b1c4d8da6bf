// What an entry that counts answered, told through a reference.
ghost use Rattle.std.specs.Prelude.{◌≡◌};
ghost use Rattle.outs.specs.Outs.{left};

use accept::Refusal;

// The number that an entry was refused with, or 0 with how many it made written through a reference:
// surfels placed, numbers listed or bytes of a report.
pub fn tell_count(answer: Result<usize, Refusal>, count: &mut usize) -> u32
    ensures { (result, count.new) ≡ left answer count.old }
{
    match answer {
        Ok(made) => {
            *count = made;
            0
        }
        Err(refusal) => u32::from(refusal),
    }
}
