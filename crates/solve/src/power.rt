// The surfels' power: their rad times their area.
ghost use Rattle.std.specs.Prelude.{◌≡◌, ◌*◌, ◌≤◌, length};
ghost use Rattle.vector.specs.Flat.{written};
ghost use Rattle.solve.specs.Bounce.{member_light};

use crate::bouncing::Bouncing;
use crate::faint::{any_faint, scaled};
use vector::Vec3;

impl Bouncing<'_> {
    // Every surfel's power, into `power`.
    pub fn update_power(&self, rad: &[f32], power: &mut [f32])
        requires rad_held { 3 * self.now.room.now.n ≤ length rad.now }
        requires power_held { 3 * self.now.room.now.n ≤ length power.old }
        ensures { power.new ≡ written (member_light self.now.room.now.area rad.now) self.now.room.now.n power.old }
    {
        let room = self.room;
        let n = room.n;
        let faint = self.faint | any_faint(&rad[..3 * n]);
        let (rads, _) = rad.as_chunks::<3>();
        for i in 0..n {
            vector::put(power, i, scaled(faint, Vec3::from(rads[i]), room.area[i]));
        }
    }
}
