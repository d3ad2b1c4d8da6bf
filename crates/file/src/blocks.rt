// The columns of a file, read block by block. A column is read where the file, of at most 268,435,456
// bytes, has all its entries and the slice holds them; otherwise the slice stays as it was.
ghost use Rattle.std.specs.Prelude.{◌≡◌, cond, Some, None};
ghost use Rattle.std.specs.Option.{option_map};
ghost use Rattle.file.specs.Blocks.{counts_in, points, normals, albedos, areas, directs, cluster_areas, firsts, member_counts, members};
ghost use Rattle.file.specs.Blocks.{row_starts, link_clusters, link_weights, probe_points, probe_normals};
ghost use Rattle.file.specs.Columns.{numbers_read, floats_read, numbers_of, floats_of};
ghost use Rattle.file.specs.Columns.{inside as Columns·inside};

use crate::floats::read_floats;
use crate::lying::{Lying, store};
use crate::{Column, Counts, RoomFile};
use accept::limits::MAX_FILE;

// The blocks of a file as these counts lay them out, which need not be those of its header.
#[derive(Clone, Copy)]
pub struct Blocks<'a> {
    pub bytes: &'a [u8],
    pub counts: Counts,
}

#[tactic(auto, using(crate::proofs::Entries::floats_stored, crate::proofs::Entries::numbers_stored))]
impl Blocks<'_> {
    // Reads the points and normals of the surfels.
    pub fn read_points(&self, p: &mut [f32], facing: &mut [f32])
        ensures p_after { p.new ≡ floats_read self.now.bytes.now (points self.now.counts) p.old }
        ensures facing_after { facing.new ≡ floats_read self.now.bytes.now (normals self.now.counts) facing.old }
    {
        read_floats(self.found(self.counts.points()), p);
        read_floats(self.found(self.counts.normals()), facing);
    }

    // Reads their albedo, area and direct light.
    pub fn read_surfaces(&self, albedo: &mut [f32], area: &mut [f32], direct: &mut [f32])
        ensures albedo_after { albedo.new ≡ floats_read self.now.bytes.now (albedos self.now.counts) albedo.old }
        ensures area_after { area.new ≡ floats_read self.now.bytes.now (areas self.now.counts) area.old }
        ensures direct_after { direct.new ≡ floats_read self.now.bytes.now (directs self.now.counts) direct.old }
    {
        read_floats(self.found(self.counts.albedos()), albedo);
        read_floats(self.found(self.counts.areas()), area);
        read_floats(self.found(self.counts.directs()), direct);
    }

    // Reads the clusters and their members.
    pub fn read_clusters(
        &self,
        area: &mut [f32],
        first: &mut [u32],
        count: &mut [u32],
        member: &mut [u32],
    )
        ensures area_after { area.new ≡ floats_read self.now.bytes.now (cluster_areas self.now.counts) area.old }
        ensures first_after { first.new ≡ numbers_read self.now.bytes.now (firsts self.now.counts) first.old }
        ensures count_after { count.new ≡ numbers_read self.now.bytes.now (member_counts self.now.counts) count.old }
        ensures member_after { member.new ≡ numbers_read self.now.bytes.now (members self.now.counts) member.old }
    {
        read_floats(self.found(self.counts.cluster_areas()), area);
        store(self.found(self.counts.firsts()), first);
        store(self.found(self.counts.member_counts()), count);
        store(self.found(self.counts.members()), member);
    }

    // Reads the rows.
    pub fn read_rows(&self, starts: &mut [u32], cluster: &mut [u32], weight: &mut [f32])
        ensures starts_after { starts.new ≡ numbers_read self.now.bytes.now (row_starts self.now.counts) starts.old }
        ensures cluster_after { cluster.new ≡ numbers_read self.now.bytes.now (link_clusters self.now.counts) cluster.old }
        ensures weight_after { weight.new ≡ floats_read self.now.bytes.now (link_weights self.now.counts) weight.old }
    {
        store(self.found(self.counts.row_starts()), starts);
        store(self.found(self.counts.link_clusters()), cluster);
        read_floats(self.found(self.counts.link_weights()), weight);
    }

    // Reads the probes.
    pub fn read_probes(&self, p: &mut [f32], facing: &mut [f32])
        ensures p_after { p.new ≡ floats_read self.now.bytes.now (probe_points self.now.counts) p.old }
        ensures facing_after { facing.new ≡ floats_read self.now.bytes.now (probe_normals self.now.counts) facing.old }
    {
        read_floats(self.found(self.counts.probe_points()), p);
        read_floats(self.found(self.counts.probe_normals()), facing);
    }

    // The column that stands there, none where it does not lie in the file.
    fn found(&self, place: Column) -> Option<Lying<'_>>
        ensures numbers { option_map (λ l. numbers_of l.bytes.now l.place) result
            ≡ cond (Columns·inside self.now.bytes.now place) (Some (numbers_of self.now.bytes.now place)) None }
        ensures floats { option_map (λ l. floats_of l.bytes.now l.place) result
            ≡ cond (Columns·inside self.now.bytes.now place) (Some (floats_of self.now.bytes.now place)) None }
    {
        if self.has(place) {
            Some(Lying {
                bytes: self.bytes,
                place,
            })
        } else {
            None
        }
    }

    // Whether a column lies in the file: the file is no longer than a room file may be and has all
    // entries, of 1 to `step` words each, `step` at most 16.
    fn has(&self, place: Column) -> bool
        ensures { result ≡ Columns·inside self.now.bytes.now place }
    {
        let words = self.bytes.len() / 4;
        let near = (self.bytes.len() <= MAX_FILE)
            & (1 <= place.width)
            & (place.width <= place.step)
            & (place.step <= 16)
            & (place.count <= words);
        if !near || words + 16 < place.from {
            return false;
        }
        place.from + place.step * place.count + place.width <= words + place.step
    }
}

impl<'a> RoomFile<'a> {
    // Its blocks, where its own counts lay them out.
    pub fn blocks(&self) -> Blocks<'a>
        ensures bytes { result.bytes.now ≡ self.now }
        ensures counts { result.counts ≡ counts_in self.now }
    {
        Blocks {
            bytes: self.bytes,
            counts: self.counts,
        }
    }

    // Reads the points and normals of the surfels.
    pub fn read_points(&self, p: &mut [f32], facing: &mut [f32])
        ensures p_after { p.new ≡ floats_read self.now (points (counts_in self.now)) p.old }
        ensures facing_after { facing.new ≡ floats_read self.now (normals (counts_in self.now)) facing.old }
    {
        self.blocks().read_points(p, facing);
    }

    // Reads their albedo, area and direct light.
    pub fn read_surfaces(&self, albedo: &mut [f32], area: &mut [f32], direct: &mut [f32])
        ensures albedo_after { albedo.new ≡ floats_read self.now (albedos (counts_in self.now)) albedo.old }
        ensures area_after { area.new ≡ floats_read self.now (areas (counts_in self.now)) area.old }
        ensures direct_after { direct.new ≡ floats_read self.now (directs (counts_in self.now)) direct.old }
    {
        self.blocks().read_surfaces(albedo, area, direct);
    }

    // Reads the clusters and their members.
    pub fn read_clusters(
        &self,
        area: &mut [f32],
        first: &mut [u32],
        count: &mut [u32],
        member: &mut [u32],
    )
        ensures area_after { area.new ≡ floats_read self.now (cluster_areas (counts_in self.now)) area.old }
        ensures first_after { first.new ≡ numbers_read self.now (firsts (counts_in self.now)) first.old }
        ensures count_after { count.new ≡ numbers_read self.now (member_counts (counts_in self.now)) count.old }
        ensures member_after { member.new ≡ numbers_read self.now (members (counts_in self.now)) member.old }
    {
        self.blocks().read_clusters(area, first, count, member);
    }

    // Reads the rows.
    pub fn read_rows(&self, starts: &mut [u32], cluster: &mut [u32], weight: &mut [f32])
        ensures starts_after { starts.new ≡ numbers_read self.now (row_starts (counts_in self.now)) starts.old }
        ensures cluster_after { cluster.new ≡ numbers_read self.now (link_clusters (counts_in self.now)) cluster.old }
        ensures weight_after { weight.new ≡ floats_read self.now (link_weights (counts_in self.now)) weight.old }
    {
        self.blocks().read_rows(starts, cluster, weight);
    }

    // Reads the probes.
    pub fn read_probes(&self, p: &mut [f32], facing: &mut [f32])
        ensures p_after { p.new ≡ floats_read self.now (probe_points (counts_in self.now)) p.old }
        ensures facing_after { facing.new ≡ floats_read self.now (probe_normals (counts_in self.now)) facing.old }
    {
        self.blocks().read_probes(p, facing);
    }
}
