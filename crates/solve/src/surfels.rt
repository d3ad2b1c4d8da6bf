// The surfels' rad, from their irr.
ghost use Rattle.std.specs.Prelude.{◌≡◌, ◌*◌, ◌≤◌, length};
ghost use Rattle.vector.specs.Flat.{vec_at, written};
ghost use Rattle.solve.specs.Bounce.{rad_of, step, greatest_step};

use crate::bouncing::Bouncing;
use crate::faint::{any_faint, times};
use vector::Vec3;

impl Bouncing<'_> {
    // Every surfel's rad, and the greatest absolute step of any channel of it.
    pub fn update_rad(&self, irr: &[f32], rad: &mut [f32]) -> f32
        requires irr_held { 3 * self.now.room.now.n ≤ length irr.now }
        requires rad_held { 3 * self.now.room.now.n ≤ length rad.old }
        ensures rad_after { rad.new
            ≡ written (λ i. rad_of self.now.room.now.direct self.now.room.now.albedo i (vec_at irr.now i)) self.now.room.now.n rad.old }
        ensures value { result
            ≡ greatest_step (vec_at rad.old) (λ i. rad_of self.now.room.now.direct self.now.room.now.albedo i (vec_at irr.now i)) self.now.room.now.n }
    {
        let room = self.room;
        let n = room.n;
        let faint = self.faint | any_faint(&irr[..3 * n]);
        let (irrs, _) = irr.as_chunks::<3>();
        let (directs, _) = room.direct.as_chunks::<3>();
        let (albedos, _) = room.albedo.as_chunks::<3>();
        let mut change = 0.0;
        for i in 0..n {
            let arriving = Vec3::from(irrs[i]);
            let reflected = times(faint, Vec3::from(albedos[i]), arriving);
            let new = Vec3::from(directs[i]).plus(reflected);
            change = float::max(change, step(vector::at(rad, i), new));
            vector::put(rad, i, new);
        }
        change
    }
}

// The greatest absolute step of a channel.
fn step(from: Vec3, to: Vec3) -> f32
    ensures { result ≡ step from to }
{
    to.minus(from).abs().max_element()
}
