// One bounce, and bounces until the last change is under 0.0001 or their limit is made.
ghost use Rattle.std.specs.Prelude.{◌≡◌};
ghost use Rattle.vector.specs.Flat.{written};
ghost use Rattle.transfer.specs.Room.{light_of, light_in, light_out};
ghost use Rattle.solve.specs.Bounce.{cluster_light, bounce, change};
ghost use Rattle.solve.specs.Runs.{stopped, settled, run, clusters_after};
ghost use Rattle.solve.specs.Answers.{run_of};
ghost use Rattle.transfer.specs.Needs.{Accepted};

use crate::SolveStats;
use crate::bouncing::Bouncing;
use crate::faint::faint_room;
use transfer::Room;

// A run of at most limit bounces, in a room that was accepted.
pub fn run(
    room: &Room,
    limit: usize,
    irr: &mut [f32],
    rad: &mut [f32],
    light: &mut [f32],
) -> SolveStats
    requires { Accepted room.now (light_of irr.old rad.old) light.old }
    ensures rad_value { run_of result (light_out irr rad) ≡ run room.now limit (light_in irr rad) }
    ensures light_after { light.new ≡ clusters_after room.now result.bounces (light_in irr rad) light.old }
{
    let most = if room.clusters.nc == 0 { 0 } else { limit };
    let bouncing = Bouncing {
        room,
        faint: faint_room(room),
    };
    let mut change = 0.0;
    for bounces in 0..most {
        let made = SolveStats { bounces, change };
        if made.stopped() {
            return made;
        }
        change = bouncing.bounce(irr, rad, light);
    }
    SolveStats {
        bounces: most,
        change,
    }
}

impl Bouncing<'_> {
    // One bounce: the clusters' light goes into `light`, irr and rad become new. The greatest absolute
    // step of any channel of rad. Until the rows are summed, irr holds the surfels' power.
    fn bounce(&self, irr: &mut [f32], rad: &mut [f32], light: &mut [f32]) -> f32
        requires { Accepted self.now.room.now (light_of irr.old rad.old) light.old }
        ensures rad_value { light_out irr rad ≡ bounce self.now.room.now (light_in irr rad) }
        ensures value { result ≡ change self.now.room.now rad.old }
        ensures light_after { light.new
            ≡ written (cluster_light self.now.room.now.clusters self.now.room.now.area rad.old) self.now.room.now.clusters.nc light.old }
    {
        self.update_power(rad, irr);
        self.update_clusters(irr, light);
        self.update_irr(light, irr);
        self.update_rad(irr, rad)
    }
}

impl SolveStats {
    // Whether a run that made this stops early: it made a bounce, and its last change is under 0.0001.
    #[tactic(auto, unfolding(crate::specs::Runs::stopped))]
    fn stopped(self) -> bool
        ensures { result ≡ stopped self.bounces self.change }
    {
        (0 < self.bounces) & (self.change < 0.0001)
    }

    // Whether a run that made this is settled: it stops early.
    pub fn settled(self) -> bool
        ensures { result ≡ settled self.bounces self.change }
    {
        self.stopped()
    }
}
