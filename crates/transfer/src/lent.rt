// A room as a solve is lent it.
//
// Kept: a count stands beside the slices, since C lends both and a slice may be longer or shorter.
use std::marker::Model;

// Clusters: their areas; of each the first of its members, and how many they are; and of each member,
// of so many, its surfel.
#[derive(Drop)]
pub struct Clusters<'a> {
    pub nc: usize,
    pub members: usize,
    pub area: &'a [f32],
    pub first: &'a [u32],
    pub count: &'a [u32],
    pub member: &'a [u32],
}

impl<'a> Model for Clusters<'a> {
    ghost use Rattle.transfer.specs.Room.{Clusters as View, clusters_of};

    ghost Value = { View };

    ghost view = { λ s. clusters_of s.nc s.members s.area.now s.first.now s.count.now s.member.now };
}

// Rows of links, one row a surfel: where each row begins, and last where the last ends; of each link,
// of so many, its cluster and its weight.
#[derive(Drop)]
pub struct Rows<'a> {
    pub links: usize,
    pub starts: &'a [u32],
    pub cluster: &'a [u32],
    pub weight: &'a [f32],
}

impl<'a> Model for Rows<'a> {
    ghost use Rattle.transfer.specs.Room.{Rows as View, rows_of};

    ghost Value = { View };

    ghost view = { λ s. rows_of s.links s.starts.now s.cluster.now s.weight.now };
}

// What a solve reads and never writes: of n surfels the albedo, the area and the direct light, the
// clusters and the rows. A list may be longer than its need.
#[derive(Drop)]
pub struct Room<'a> {
    pub n: usize,
    pub albedo: &'a [f32],
    pub area: &'a [f32],
    pub direct: &'a [f32],
    pub clusters: Clusters<'a>,
    pub rows: Rows<'a>,
}

impl<'a> Model for Room<'a> {
    ghost use Rattle.transfer.specs.Room.{Room as View, room_of};

    ghost Value = { View };

    ghost view = { λ s. room_of s.n s.albedo.now s.area.now s.direct.now s.clusters s.rows };
}
