// What the links of a surfel should sum to, and their scaling to it.
ghost use Rattle.std.specs.Prelude.{◌≡◌};
ghost use Rattle.links.specs.Scaling.{target_of, scaled_by, calibrated, calibrated_sum};

// What a row's sum should be, where this part of the hemisphere is open.
#[tactic(auto, unfolding(crate::specs::Scaling::target_of))]
pub fn target_of(sky: f32) -> f32
    ensures { result ≡ target_of sky }
{
    float::clamp(1.0 - sky, 0.0, 1.0)
}

// Scales the weights of a row to the target where their sum, which is given, exceeds 1e-5; the sum
// after that.
pub fn calibrate(row: &mut [f32], target: f32, sum: f32) -> f32
    ensures value { result ≡ calibrated_sum target sum }
    ensures row_after { row.new ≡ calibrated target sum row.old }
{
    if sum > 1e-5 {
        let scale = float::min(target / sum, 8.0);
        rescale(row, scale);
        sum * scale
    } else {
        sum
    }
}

// Each weight of a row times the scale.
#[tactic(auto, unfolding(crate::specs::Scaling::scaled_by))]
fn rescale(row: &mut [f32], scale: f32)
    ensures { row.new ≡ scaled_by scale row.old }
{
    for w in row.iter_mut() {
        *w *= scale;
    }
}
