// The light of clusters, from their members' power.
ghost use Rattle.std.specs.Prelude.{◌≡◌, ◌*◌, ◌≤◌, length};
ghost use Rattle.vector.specs.Flat.{vec_at, written};
ghost use Rattle.vector.specs.Fold.{total};
ghost use Rattle.accept.specs.Tables.{number_at};
ghost use Rattle.solve.specs.Held.{AllBelow, cluster_light_of, triple};

use crate::bouncing::Bouncing;
use crate::faint::over;
use accept::wide;
use vector::Vec3;

impl Bouncing<'_> {
    // Every cluster's light, into `light`, from the surfels' power.
    pub fn update_clusters(&self, power: &[f32], light: &mut [f32])
        requires power_held { 3 * self.now.room.now.n ≤ length power.now }
        requires light_held { 3 * self.now.room.now.clusters.nc ≤ length light.old }
        ensures { light.new
            ≡ written (cluster_light_of self.now.room.now.clusters (vec_at power.now)) self.now.room.now.clusters.nc light.old }
    {
        let room = self.room;
        let clusters = &room.clusters;
        let (powers, _) = power.as_chunks::<3>();
        for c in 0..clusters.nc {
            let from = wide(clusters.first[c]);
            let to = from + wide(clusters.count[c]);
            let sum = members_light(powers, &clusters.member[from..to]);
            vector::put(light, c, over(sum, float::max(clusters.area[c], 1e-12)));
        }
    }
}

// The sum of the power of these members.
#[tactic(auto, using(vector::proofs::Sums::fold_none, vector::proofs::Sums::fold_more))]
fn members_light(powers: &[[f32; 3]], members: &[u32]) -> Vec3
    requires { AllBelow (length powers.now) members.now }
    ensures { result ≡ total (λ j. triple powers.now (number_at members.now j)) (length members.now) }
{
    let mut sum = Vec3::zero();
    for &i in members {
        sum = sum.plus(Vec3::from(powers[wide(i)]));
    }
    sum
}
