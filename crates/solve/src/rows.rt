// The surfels' irr, from the light of the clusters that their rows link to.
ghost use Rattle.std.specs.Prelude.{◌≡◌, ◌+◌, ◌*◌, ◌<◌, ◌≤◌, length};
ghost use Rattle.vector.specs.Flat.{vec_at, written};
ghost use Rattle.vector.specs.Fold.{total};
ghost use Rattle.solve.specs.Bounce.{link_light, row_light};
ghost use Rattle.solve.specs.Held.{RowsLit, triple};

use crate::bouncing::Bouncing;
use crate::faint::any_faint;
use accept::wide;
use vector::Vec3;

// The rows of n surfels, each link with its weight and a cluster, and each cluster's light.
#[derive(Clone, Copy)]
pub struct LitRows<'r, 'l> {
    pub n: usize,
    pub links: usize,
    pub starts: &'r [u32],
    pub cluster: &'r [u32],
    pub weight: &'r [f32],
    pub light: &'l [[f32; 3]],
    pub ghost lit: { RowsLit n links starts.now cluster.now weight.now (length light.now) },
}

// What two rows bring.
#[derive(Clone, Copy)]
pub struct TwoRows {
    pub first: Vec3,
    pub second: Vec3,
}

impl Bouncing<'_> {
    // Every surfel's irr: what its row brings of the clusters' light.
    pub fn update_irr(&self, light: &[f32], irr: &mut [f32])
        requires light_held { 3 * self.now.room.now.clusters.nc ≤ length light.now }
        requires irr_held { 3 * self.now.room.now.n ≤ length irr.old }
        ensures { irr.new
            ≡ written (row_light self.now.room.now.rows (vec_at light.now)) self.now.room.now.n irr.old }
    {
        let room = self.room;
        let faint = self.faint | any_faint(&light[..3 * room.clusters.nc]);
        let (lights, _) = light.as_chunks::<3>();
        let rows = &room.rows;
        let lit = LitRows {
            n: room.n,
            links: rows.links,
            starts: rows.starts,
            cluster: rows.cluster,
            weight: rows.weight,
            light: lights,
        };
        if faint {
            lit.faint_irr(irr);
        } else {
            lit.ample_irr(irr);
        }
    }
}

impl LitRows<'_, '_> {
    ghost use Rattle.solve.specs.Lit.{rows_lit};

    // Every surfel's irr, in the least time where nothing is faint. Two rows are summed in a turn, one
    // from the front and one from the middle on; the middle one of an odd number is stored twice.
    fn ample_irr(&self, irr: &mut [f32])
        requires { 3 * self.now.n ≤ length irr.old }
        ensures { irr.new
            ≡ written (row_light (rows_lit self.now) (triple self.now.light.now)) self.now.n irr.old }
    {
        let middle = self.n / 2;
        let turns = self.n - middle;
        for i in 0..turns {
            let k = middle + i;
            let two = self.two_rows(i, k);
            vector::put(irr, i, two.first);
            vector::put(irr, k, two.second);
        }
    }

    // What the rows i and k bring: their first links in one loop, so that neither sum waits for the
    // other, then what the longer has left.
    fn two_rows(&self, i: usize, k: usize) -> TwoRows
        requires i_lt_n { i < self.now.n }
        requires k_lt_n { k < self.now.n }
        ensures first_value { result.first ≡ row_light (rows_lit self.now) (triple self.now.light.now) i }
        ensures second_value { result.second ≡ row_light (rows_lit self.now) (triple self.now.light.now) k }
    {
        let a = wide(self.starts[i]);
        let b = wide(self.starts[k]);
        let m = wide(self.starts[i + 1]) - a;
        let o = wide(self.starts[k + 1]) - b;
        let both = m.min(o);
        let sums = self.both_light(a, b, both);
        let first = self.row_light(a, both, m, sums.first);
        let second = self.row_light(b, both, o, sums.second);
        TwoRows { first, second }
    }

    // The sums over so many links from a on and from b on.
    #[tactic(auto, using(vector::proofs::Sums::fold_none, vector::proofs::Sums::fold_more))]
    fn both_light(&self, a: usize, b: usize, count: usize) -> TwoRows
        requires count_bound { a + count ≤ self.now.links }
        requires count_bound_2 { b + count ≤ self.now.links }
        ensures first_value { result.first
            ≡ total (λ j. link_light (rows_lit self.now) (triple self.now.light.now) (a + j)) count }
        ensures second_value { result.second
            ≡ total (λ j. link_light (rows_lit self.now) (triple self.now.light.now) (b + j)) count }
    {
        let mut first = Vec3::zero();
        let mut second = Vec3::zero();
        for j in 0..count {
            first = first.plus(self.link_light(a + j));
            second = second.plus(self.link_light(b + j));
        }
        TwoRows { first, second }
    }

    // The sum over so many links from one of them on, of which some are summed already.
    #[tactic(auto, using(vector::proofs::Sums::fold_more))]
    fn row_light(&self, from: usize, summed: usize, count: usize, so_far: Vec3) -> Vec3
        requires summed_le_count { summed ≤ count }
        requires count_bound { from + count ≤ self.now.links }
        requires so_far_value { so_far
            ≡ total (λ j. link_light (rows_lit self.now) (triple self.now.light.now) (from + j)) summed }
        ensures { result ≡ total (λ j. link_light (rows_lit self.now) (triple self.now.light.now) (from + j)) count }
    {
        let mut sum = so_far;
        for j in summed..count {
            sum = sum.plus(self.link_light(from + j));
        }
        sum
    }

    // What link k brings: the light of its cluster times its weight.
    fn link_light(&self, k: usize) -> Vec3
        requires { k < self.now.links }
        ensures { result ≡ link_light (rows_lit self.now) (triple self.now.light.now) k }
    {
        Vec3::from(self.light[wide(self.cluster[k])]).scaled(self.weight[k])
    }
}
