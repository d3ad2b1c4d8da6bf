// The surfels' irr where a weight or the clusters' light is faint.
ghost use Rattle.std.specs.Prelude.{◌≡◌, ◌+◌, ◌*◌, ◌<◌, ◌≤◌, length};
ghost use Rattle.vector.specs.Flat.{written};
ghost use Rattle.vector.specs.Fold.{total};
ghost use Rattle.solve.specs.Channels.{channel};
ghost use Rattle.solve.specs.Held.{triple};
ghost use Rattle.solve.specs.Lit.{rows_lit};
ghost use Rattle.solve.specs.Bounce.{link_light, row_light};

use crate::rows::LitRows;
use accept::wide;
use vector::Vec3;

// Kept: rows of faint light have a loop of their own: one loop with this product for both took 1.3 times
// as long there, and any room file is to be answered within a second.
impl LitRows<'_, '_> {
    // Every surfel's irr, in good time where something is faint.
    pub fn faint_irr(&self, irr: &mut [f32])
        requires { 3 * self.now.n ≤ length irr.old }
        ensures { irr.new
            ≡ written (row_light (rows_lit self.now) (triple self.now.light.now)) self.now.n irr.old }
    {
        for i in 0..self.n {
            let from = wide(self.starts[i]);
            let count = wide(self.starts[i + 1]) - from;
            vector::put(irr, i, self.faint_row(from, count));
        }
    }

    // The sum over so many links from one of them on, channel by channel.
    fn faint_row(&self, from: usize, count: usize) -> Vec3
        requires { from + count ≤ self.now.links }
        ensures { result ≡ total (λ j. link_light (rows_lit self.now) (triple self.now.light.now) (from + j)) count }
    {
        Vec3 {
            x: self.faint_channel(from, count, 0),
            y: self.faint_channel(from, count, 1),
            z: self.faint_channel(from, count, 2),
        }
    }

    // Channel d of the sum over so many links from one of them on.
    #[tactic(auto, using(crate::proofs::Channelled::channel_none, crate::proofs::Channelled::channel_more))]
    fn faint_channel(&self, from: usize, count: usize, d: usize) -> f32
        requires count_bound { from + count ≤ self.now.links }
        requires d_bound { d < 3 }
        ensures { result
            ≡ channel d (total (λ j. link_light (rows_lit self.now) (triple self.now.light.now) (from + j)) count) }
    {
        let mut sum = 0.0;
        for j in 0..count {
            sum = sum + self.faint_link(from + j, d);
        }
        sum
    }

    // Channel d of what link k brings: of the light of its cluster times its weight.
    fn faint_link(&self, k: usize, d: usize) -> f32
        requires k_bound { k < self.now.links }
        requires d_bound { d < 3 }
        ensures { result ≡ channel d (link_light (rows_lit self.now) (triple self.now.light.now) k) }
    {
        let c = wide(self.cluster[k]);
        subnormal::product(self.light[c][d], self.weight[k])
    }
}
