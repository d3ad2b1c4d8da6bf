// What a grid or a reading answered, told through references.
ghost use Rattle.std.specs.Prelude.{◌≡◌};
ghost use Rattle.outs.specs.Outs.{dims_outs, reading_outs, left};
ghost use Rattle.outs.specs.Surfels.{gather_left};

use accept::Refusal;
use grid::Dims;
use surfel::Reading;

// The number that a grid was refused with, or 0 with its dimensions written through references.
pub fn tell_dims(
    answer: Result<Dims, Refusal>,
    dx: &mut usize,
    dy: &mut usize,
    dz: &mut usize,
) -> u32
    ensures { (result, (dims_outs dx dy dz).exit) ≡ left answer (dims_outs dx dy dz).entry }
{
    match answer {
        Ok(dim) => {
            *dx = dim.x;
            *dy = dim.y;
            *dz = dim.z;
            0
        }
        Err(refusal) => u32::from(refusal),
    }
}

// The number that a reading was refused with, or 0 with the reading written through references.
// Kept: 1 or 0 beside the light, since C has no enum that holds a value.
pub fn tell_reading(
    answer: Result<Reading, Refusal>,
    seen: &mut u32,
    x: &mut f32,
    y: &mut f32,
    z: &mut f32,
) -> u32
    ensures { (result, (reading_outs seen x y z).exit) ≡ gather_left answer (reading_outs seen x y z).entry }
{
    match answer {
        Ok(Reading::Seen(light)) => {
            *seen = 1;
            *x = light.x;
            *y = light.y;
            *z = light.z;
            0
        }
        Ok(Reading::Unseen) => {
            *seen = 0;
            *x = 0.0;
            *y = 0.0;
            *z = 0.0;
            0
        }
        Err(refusal) => u32::from(refusal),
    }
}
