// The rows of all surfels, one after the other.
ghost use Rattle.std.specs.Prelude.{◌≡◌, ◌+◌, ◌<◌, ◌≤◌, length, take};
ghost use Rattle.std.proofs.lemmas.List.Edits.{sets};
ghost use Rattle.vector.specs.Flat.{KeptFrom};
ghost use Rattle.accept.specs.Limits.{max_surfels};
ghost use Rattle.formfactor.specs.Building.{capacity, mean_of};
ghost use Rattle.formfactor.specs.Answers.{built};
ghost use Rattle.formfactor.specs.Needs.{ScratchHeld, Small, with_links, with_row, built_of};

use crate::setting::Setting;
use crate::{BuildError, Built, Interior, RowMade, RowsMade};
use accept::limits::MAX_LINKS;
use vector::put_all;

impl Setting<'_> {
    // Builds the rows of the surfels until one does not fit.
    pub fn build_rows(
        &self,
        starts: &mut [u32],
        link_cluster: &mut [u32],
        link_weight: &mut [f32],
        link: &mut [u32],
        weight: &mut [f32],
    ) -> Result<Built, BuildError>
        requires started { self.now.n < length starts.old }
        requires scratch_held { ScratchHeld self.now.emitters.nc link.old weight.old }
        ensures link_weight_after { (result, starts.new, link_cluster.new, link_weight.new)
            ≡ built self.now starts.old link_cluster.old link_weight.old }
        ensures kept_from { KeptFrom self.now.emitters.nc link }
        ensures kept_from_2 { KeptFrom self.now.emitters.nc weight }
    {
        let room = capacity(link_cluster.len(), link_weight.len());
        let surfels = self.surfels;
        let mut made = RowsMade::default();
        for i in 0..surfels.n {
            starts[i] = made.links as u32;
            let row = self.make_row(surfels.receiver_at(i), link, weight);
            if room - made.links < row.links {
                return Err(BuildError::Full(i));
            }
            put_links(
                link,
                weight,
                row.links,
                link_cluster,
                link_weight,
                made.links,
            );
            made = made.with(row, i);
        }
        starts[surfels.n] = made.links as u32;
        Ok(made.built())
    }
}

// How many links two slices of these lengths take.
fn capacity(clusters: usize, weights: usize) -> usize
    ensures { result ≡ capacity clusters weights }
{
    clusters.min(weights).min(MAX_LINKS)
}

// Copies the first k links of a row behind those of the rows before it.
fn put_links(
    link: &[u32],
    weight: &[f32],
    k: usize,
    link_cluster: &mut [u32],
    link_weight: &mut [f32],
    at: usize,
)
    requires k_in_bounds { k ≤ length link.now }
    requires k_in_bounds_2 { k ≤ length weight.now }
    requires k_in_bounds_3 { at + k ≤ length link_cluster.old }
    requires k_in_bounds_4 { at + k ≤ length link_weight.old }
    ensures link_cluster_after { link_cluster.new ≡ sets link_cluster.old at (take k link.now) }
    ensures link_weight_after { link_weight.new ≡ sets link_weight.old at (take k weight.now) }
{
    put_all(link_cluster, at, &link[..k]);
    put_all(link_weight, at, &weight[..k]);
}

impl RowsMade {
    // The rows with one more.
    #[tactic(auto, unfolding(crate::specs::Needs::with_row))]
    fn with(self, row: RowMade, i: usize) -> RowsMade
        requires { Small self row i }
        ensures { result ≡ with_row self row }
    {
        RowsMade {
            links: self.links + row.links,
            interior: self.interior.with(row),
            evals: self.evals + row.evals,
        }
    }

    // What is answered of the rows.
    #[tactic(auto, unfolding(crate::specs::Needs::built_of))]
    fn built(self) -> Built
        requires { self.interior.rows ≤ max_surfels }
        ensures { result ≡ built_of self }
    {
        Built {
            links: self.links,
            mean_row_sum: self.interior.mean(),
            evals: self.evals,
        }
    }
}

impl Interior {
    // The rows with one more, which counts if it has links.
    #[tactic(auto, unfolding(crate::specs::Needs::with_links))]
    fn with(self, row: RowMade) -> Interior
        requires { self.rows < max_surfels }
        ensures { result ≡ with_links self row }
    {
        if row.links == 0 {
            self
        } else {
            Interior {
                rows: self.rows + 1,
                sum: self.sum + row.sum,
            }
        }
    }

    // The mean of the row sums, 0 if there are no rows.
    #[tactic(auto, unfolding(crate::specs::Building::mean_of))]
    fn mean(self) -> f32
        requires { self.rows ≤ max_surfels }
        ensures { result ≡ mean_of self }
    {
        if self.rows == 0 {
            0.0
        } else {
            self.sum / (self.rows as f32)
        }
    }
}
