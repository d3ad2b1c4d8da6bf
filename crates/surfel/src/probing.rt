// Many probes read one after the other.
ghost use Rattle.std.specs.Prelude.{◌≡◌, ◌*◌, ◌≤◌, length};
ghost use Rattle.surfel.specs.Answers.{seen_number, seen_light, all_seen, all_light};

use crate::gathering::Gridded;
use crate::{Probes, Reading};
use vector::Vec3;

impl Gridded<'_> {
    // The reading at each of the probes.
    pub fn read_each(&self, probes: &Probes, seen: &mut [u32], light: &mut [f32])
        requires probes_in_bounds { probes.now.count ≤ length seen.old }
        requires probes_in_bounds_2 { 3 * probes.now.count ≤ length light.old }
        ensures seen_after { seen.new ≡ all_seen self.now.grid self.now.surfels probes.now seen.old }
        ensures light_after { light.new ≡ all_light self.now.grid self.now.surfels probes.now light.old }
    {
        for i in 0..probes.count {
            let at = vector::at(probes.p, i);
            let normal = vector::at(probes.normals, i);
            let reading = self.read(at, normal, probes.radius);
            seen[i] = reading.seen_number();
            vector::put(light, i, reading.seen_light());
        }
    }
}

impl Reading {
    // 1 for a reading that is seen, 0 for one that is not.
    fn seen_number(self) -> u32
        ensures { result ≡ seen_number self }
    {
        match self {
            Reading::Seen(_) => 1,
            Reading::Unseen => 0,
        }
    }

    // The light of a reading, zero where it is unseen.
    fn seen_light(self) -> Vec3
        ensures { result ≡ seen_light self }
    {
        match self {
            Reading::Seen(light) => light,
            Reading::Unseen => Vec3::zero(),
        }
    }
}
