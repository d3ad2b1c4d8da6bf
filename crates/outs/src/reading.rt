// What reading a room file answered, told through references.
ghost use Rattle.std.specs.Prelude.{◌≡◌};
ghost use Rattle.outs.specs.Reading.{read_left};

use accept::Refusal;
use room::Head;

// The number that a file was refused with, or 0 with its counts and the limit, and with lo, hi, the
// side of a cell and the radius, written through references.
pub fn tell_head(
    answer: Result<Head, Refusal>,
    counts: &mut [usize; 6],
    sizes: &mut [f32; 8],
) -> u32
    ensures { (result, counts.new, sizes.new) ≡ read_left answer counts.old sizes.old }
{
    match answer {
        Ok(head) => {
            *counts = [
                head.counts.surfels as usize,
                head.counts.clusters as usize,
                head.counts.members as usize,
                head.counts.links as usize,
                head.counts.probes as usize,
                head.counts.limit as usize,
            ];
            *sizes = [
                head.bounds.lo.x,
                head.bounds.lo.y,
                head.bounds.lo.z,
                head.bounds.hi.x,
                head.bounds.hi.y,
                head.bounds.hi.z,
                head.bounds.cell,
                head.bounds.radius,
            ];
            0
        }
        Err(refusal) => u32::from(refusal),
    }
}
