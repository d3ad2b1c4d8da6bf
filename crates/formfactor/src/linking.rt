// A row of links, made in scratch: raw links, then scaled to their target.
ghost use Rattle.std.specs.Prelude.{◌≡◌, ◌+◌, ◌*◌, ◌≤◌};
ghost use Rattle.std.proofs.lemmas.List.Edits.{sets};
ghost use Rattle.formfactor.specs.Lent.{cluster_at};
ghost use Rattle.formfactor.specs.Linking.{cluster_if, weight_if, raw_links, row_of};
ghost use Rattle.formfactor.specs.Needs.{ScratchHeld, Open, RowStanding, LinksStanding, pair_made};

use crate::RowMade;
use crate::setting::Setting;
use accept::wide;
use links::{Pair, Receiver, calibrate, pair_of, target_of};
use scene::opening::hemisphere_closure;

impl Setting<'_> {
    // The row of surfel a: its links stand in link and weight from place 0 on.
    // Kept: two slices and a count: tried as one struct that links are pushed to; the row closed, and what
    // the slices hold when `build_rows` returns did not (`returns-clause-kept_from`).
    pub fn make_row(&self, a: Receiver, link: &mut [u32], weight: &mut [f32]) -> RowMade
        requires { ScratchHeld self.now.emitters.nc link.old weight.old }
        ensures row_standing { RowStanding (row_of self.now.scene self.now.diag a (cluster_at self.now.emitters) self.now.emitters.nc) result link weight }
        ensures links_le_nc { result.links ≤ self.now.emitters.nc }
        ensures evals_bound { result.evals ≤ 96 * self.now.emitters.nc + 2112 }
    {
        let raw = self.raw_links(a, link, weight);
        let above = hemisphere_closure(self.scene, a.p, a.n, self.diag * 2.0);
        let row = &mut weight[..raw.links];
        let sum = calibrate(row, target_of(above.sky), raw.sum);
        RowMade {
            links: raw.links,
            sum: float::min(sum, 1.0),
            evals: raw.evals + wide(above.evals),
        }
    }

    // The raw links of surfel a to the clusters.
    fn raw_links(&self, a: Receiver, link: &mut [u32], weight: &mut [f32]) -> RowMade
        requires { ScratchHeld self.now.emitters.nc link.old weight.old }
        ensures links_standing { LinksStanding (raw_links self.now.scene self.now.diag a (cluster_at self.now.emitters) self.now.emitters.nc) result link weight }
        ensures links_le_nc { result.links ≤ self.now.emitters.nc }
        ensures evals_bound { result.evals ≤ 96 * self.now.emitters.nc }
    {
        let emitters = self.emitters;
        let mut made = RowMade::default();
        for c in 0..emitters.nc {
            let pair = pair_of(self.scene, self.diag, a, emitters.cluster_at(c));
            made = put_pair(link, weight, made, c, pair);
        }
        made
    }
}

// Puts the pair of cluster c after the links of a row, if it is linked; the row with it.
#[tactic(auto, unfolding(crate::specs::Needs::pair_made))]
fn put_pair(link: &mut [u32], weight: &mut [f32], made: RowMade, c: usize, pair: Pair) -> RowMade
    requires fact { Open made c link.old weight.old }
    requires evals_bound { pair.evals ≤ 96 }
    ensures value { result ≡ pair_made made pair }
    ensures link_after { link.new ≡ sets link.old made.links (cluster_if pair.weight c) }
    ensures weight_after { weight.new ≡ sets weight.old made.links (weight_if pair.weight) }
{
    let evals = made.evals + wide(pair.evals);
    let k = made.links;
    let Some(w) = pair.weight else {
        return RowMade {
            links: k,
            sum: made.sum,
            evals,
        };
    };
    link[k] = c as u32;
    weight[k] = w;
    RowMade {
        links: k + 1,
        sum: made.sum + w,
        evals,
    }
}
