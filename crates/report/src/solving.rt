// The solve of a file's room, in columns of the length of their need.
ghost use Rattle.std.specs.Prelude.{◌≡◌, ◌*◌, length};
ghost use Rattle.transfer.specs.Room.{clusters_of, rows_of};
ghost use Rattle.file.specs.Blocks.{counts_in, cluster_areas, firsts, member_counts, members, row_starts, link_clusters, link_weights};
ghost use Rattle.file.specs.Columns.{numbers_read, floats_read};
ghost use Rattle.report.specs.Light.{run_of_file};

use crate::accepted::Accepted;
use accept::wide;
use reset::reset;
use solve::{SolveStats, solve};
use transfer::{Clusters, Room, Rows};

impl Accepted<'_> {
    // The solve of the file's room: how many bounces, and the last change; irr becomes what it leaves,
    // three floats a surfel. Neither the reset nor the solve is refused, since the file is accepted.
    // Kept: local arrays cut to their need, since a report can't fail and so has no heap.
    pub fn solve(&self, irr: &mut [f32]) -> SolveStats
        requires { length irr.old ≡ 3 * (counts_in self.now.file.now).surfels }
        ensures bounces_value { result.bounces ≡ (run_of_file self.now.file.now).bounces }
        ensures change_value { result.change ≡ (run_of_file self.now.file.now).last }
        ensures irr_value { irr.new ≡ (run_of_file self.now.file.now).light.irr }
    {
        let c = self.counts();
        let n = wide(c.surfels);
        let nc = wide(c.clusters);
        let members = wide(c.members);
        let links = wide(c.links);
        let albedo = &mut [0.0; 16384][..3 * n];
        let area = &mut [0.0; 16384][..n];
        let light = &mut [0.0; 16384][..3 * n];
        let direct = &mut [0.0; 16384][..3 * n];
        let rad = &mut [0.0; 16384][..3 * n];
        let scratch = &mut [0.0; 16384][..3 * nc];
        let cluster_area = &mut [0.0; 16384][..nc];
        let first = &mut [0u32; 16384][..nc];
        let count = &mut [0u32; 16384][..nc];
        let member = &mut [0u32; 16384][..members];
        let starts = &mut [0u32; 16384][..n + 1];
        let cluster = &mut [0u32; 16384][..links];
        let weight = &mut [0.0; 16384][..links];
        self.file.read_surfaces(albedo, area, light);
        reset(light, direct, irr, rad).unwrap();
        let room = Room {
            n,
            albedo,
            area,
            direct,
            clusters: self.clusters(cluster_area, first, count, member),
            rows: self.rows(starts, cluster, weight),
        };
        solve(&room, wide(c.limit), irr, rad, scratch).unwrap()
    }

    // The clusters of the file, read into these columns.
    fn clusters<'t>(
        &self,
        area: &'t mut [f32],
        first: &'t mut [u32],
        count: &'t mut [u32],
        member: &'t mut [u32],
    ) -> Clusters<'t>
        ensures { let b = self.now.file.now in let c = counts_in b in result
            ≡ clusters_of c.clusters c.members (floats_read b (cluster_areas c) area.old) (numbers_read b (firsts c) first.old)
            (numbers_read b (member_counts c) count.old) (numbers_read b (members c) member.old) }
    {
        let c = self.file.counts();
        self.file.read_clusters(area, first, count, member);
        Clusters {
            nc: wide(c.clusters),
            members: wide(c.members),
            area,
            first,
            count,
            member,
        }
    }

    // The rows of the file, read into these columns.
    fn rows<'t>(
        &self,
        starts: &'t mut [u32],
        cluster: &'t mut [u32],
        weight: &'t mut [f32],
    ) -> Rows<'t>
        ensures { let b = self.now.file.now in let c = counts_in b in result
            ≡ rows_of c.links (numbers_read b (row_starts c) starts.old) (numbers_read b (link_clusters c) cluster.old)
            (floats_read b (link_weights c) weight.old) }
    {
        self.file.read_rows(starts, cluster, weight);
        Rows {
            links: wide(self.file.counts().links),
            starts,
            cluster,
            weight,
        }
    }
}
