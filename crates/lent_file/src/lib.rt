// A room file read into as much of each column as the words of a line say, for the replay programs.
#![tactic(auto)]

mod lending;
mod words;

use float::of_bits;
pub use lending::Lent;
use replay::{Words, lent_mut, shown_at};

// The columns that a room file is read into, each of 64 places, in the order of the parameters of
// `room_read`: of the surfels, of the clusters and their members, of the rows, of the probes.
#[derive(Drop)]
pub struct Columns {
    pub p: [f32; 64],
    pub normals: [f32; 64],
    pub albedo: [f32; 64],
    pub area: [f32; 64],
    pub direct: [f32; 64],
    pub cluster_area: [f32; 64],
    pub first: [u32; 64],
    pub count: [u32; 64],
    pub member: [u32; 64],
    pub starts: [u32; 64],
    pub link_cluster: [u32; 64],
    pub link_weight: [f32; 64],
    pub probe_p: [f32; 64],
    pub probe_normals: [f32; 64],
}

impl Columns {
    // One word in every place of every column.
    pub fn marked(word: u32) -> Columns {
        let x = of_bits(word);
        Columns {
            p: [x; 64],
            normals: [x; 64],
            albedo: [x; 64],
            area: [x; 64],
            direct: [x; 64],
            cluster_area: [x; 64],
            first: [word; 64],
            count: [word; 64],
            member: [word; 64],
            starts: [word; 64],
            link_cluster: [word; 64],
            link_weight: [x; 64],
            probe_p: [x; 64],
            probe_normals: [x; 64],
        }
    }

    // The words of what `room_read` answers where it is lent so many places of each of these columns;
    // more than there are mean all.
    pub fn read(&mut self, file: &[u8], lengths: Lent) -> Words {
        words::read(room::room_read(
            file,
            lent_mut(&mut self.p, lengths.p),
            lent_mut(&mut self.normals, lengths.normals),
            lent_mut(&mut self.albedo, lengths.albedo),
            lent_mut(&mut self.area, lengths.area),
            lent_mut(&mut self.direct, lengths.direct),
            lent_mut(&mut self.cluster_area, lengths.cluster_area),
            lent_mut(&mut self.first, lengths.first),
            lent_mut(&mut self.count, lengths.count),
            lent_mut(&mut self.member, lengths.member),
            lent_mut(&mut self.starts, lengths.starts),
            lent_mut(&mut self.link_cluster, lengths.link_cluster),
            lent_mut(&mut self.link_weight, lengths.link_weight),
            lent_mut(&mut self.probe_p, lengths.probe_p),
            lent_mut(&mut self.probe_normals, lengths.probe_normals),
        ))
    }

    // Up to 16 words of the column of this number from place `at` on; none where there is no such
    // column, or it has no such place.
    pub fn shown(&self, number: u32, at: usize) -> Option<Words> {
        match number {
            0 => shown_at(&self.p, at),
            1 => shown_at(&self.normals, at),
            2 => shown_at(&self.albedo, at),
            3 => shown_at(&self.area, at),
            4 => shown_at(&self.direct, at),
            5 => shown_at(&self.cluster_area, at),
            6 => shown_at(&self.first, at),
            7 => shown_at(&self.count, at),
            8 => shown_at(&self.member, at),
            9 => shown_at(&self.starts, at),
            10 => shown_at(&self.link_cluster, at),
            11 => shown_at(&self.link_weight, at),
            12 => shown_at(&self.probe_p, at),
            13 => shown_at(&self.probe_normals, at),
            _ => None,
        }
    }
}
