// What clusters and rows answered, told through references.
ghost use Rattle.std.specs.Prelude.{◌≡◌};
ghost use Rattle.outs.specs.Outs.{clustered_outs, build_outs, left};
ghost use Rattle.outs.specs.Rows.{build_left};

use accept::Refusal;
use clusters::Clustered;
use formfactor::{BuildError, Built};

// The number that clusters were refused with, or 0 with the two counts written through references.
pub fn tell_clustered(
    answer: Result<Clustered, Refusal>,
    made: &mut usize,
    listed: &mut usize,
) -> u32
    ensures { (result, (clustered_outs made listed).exit) ≡ left answer (clustered_outs made listed).entry }
{
    match answer {
        Ok(c) => {
            *made = c.clusters;
            *listed = c.members;
            0
        }
        Err(refusal) => u32::from(refusal),
    }
}

// The number that rows were refused with, 8 with the row that did not fit, or 0 with what was built,
// written through references.
pub fn tell_built(
    answer: Result<Built, BuildError>,
    links: &mut usize,
    mean_row_sum: &mut f32,
    evals: &mut usize,
    row: &mut usize,
) -> u32
    ensures { (result, (build_outs links mean_row_sum evals row).exit)
        ≡ build_left answer (build_outs links mean_row_sum evals row).entry }
{
    match answer {
        Ok(b) => {
            *links = b.links;
            *mean_row_sum = b.mean_row_sum;
            *evals = b.evals;
            0
        }
        Err(BuildError::Refused(refusal)) => u32::from(refusal),
        Err(BuildError::Full(r)) => {
            *row = r;
            8
        }
    }
}
