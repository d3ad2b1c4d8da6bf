// The readings at a file's probes, in columns of the length of their need.
ghost use Rattle.std.specs.Prelude.{◌≡◌, ◌*◌, length};
ghost use Rattle.vector.specs.Flat.{filled, written};
ghost use Rattle.surfel.specs.Answers.{seen_number, seen_light};
ghost use Rattle.file.specs.Blocks.{counts_in};
ghost use Rattle.report.specs.Light.{run_of_file, reading_of_file};

use crate::accepted::Accepted;
use accept::wide;
use grid::{Grid, grid_build};
use surfel::{Probes, Surfels, gather_all};

impl Accepted<'_> {
    // The readings at the probes of the file, with the irr that its solve left: in seen, one number a
    // probe, 1 where light is seen and 0 where it is not, and in light, three floats a probe, the light.
    // Neither the grid nor the readings are refused, since the file is accepted.
    // Kept: local arrays cut to their need, as in `solve`.
    pub fn read(&self, irr: &[f32], seen: &mut [u32], light: &mut [f32])
        requires irr_value { irr.now ≡ (run_of_file self.now.file.now).light.irr }
        requires irr_cut { length irr.now ≡ 3 * (counts_in self.now.file.now).surfels }
        requires seen_cut { length seen.old ≡ (counts_in self.now.file.now).probes }
        requires light_cut { length light.old ≡ 3 * (counts_in self.now.file.now).probes }
        ensures seen_after { seen.new
            ≡ filled (λ i. seen_number (reading_of_file self.now.file.now i)) (counts_in self.now.file.now).probes seen.old }
        ensures light_after { light.new
            ≡ written (λ i. seen_light (reading_of_file self.now.file.now i)) (counts_in self.now.file.now).probes light.old }
    {
        let c = self.counts();
        let x = self.probe_box();
        let n = wide(c.surfels);
        let count = wide(c.probes);
        let space = x.space();
        let p = &mut [0.0; 16384][..3 * n];
        let normals = &mut [0.0; 16384][..3 * n];
        let starts = &mut [0u32; 16384][..space.cells() + 1];
        let items = &mut [0u32; 16384][..n];
        let probe_p = &mut [0.0; 16384][..3 * count];
        let probe_normals = &mut [0.0; 16384][..3 * count];
        self.file.read_points(p, normals);
        self.file.read_probes(probe_p, probe_normals);
        grid_build(n, p, space, starts, items).unwrap();
        let grid = Grid {
            n,
            starts,
            items,
            space,
        };
        let surfels = Surfels { p, normals, irr };
        let probes = Probes {
            count,
            p: probe_p,
            normals: probe_normals,
            radius: x.radius,
        };
        gather_all(&grid, &surfels, &probes, seen, light).unwrap();
    }
}
