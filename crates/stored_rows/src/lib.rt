// Surfels, clusters and rows stored line by line, as the replay programs read them, and how much of
// each table the two calls are lent. A line `put_` with a table's name puts words into that table
// from a place on; a word that a line lacks is not put, nor one that has no place.
#![tactic(auto)]

mod lending;
mod written;

pub use lending::{ClustersLent, RowsLent};
use replay::{Line, put};
pub use written::{Clusters, Members, Rows};

// Places for 32 surfels, 32 clusters with 32 members in all, and rows with 160 links; and how many places
// of each table the two calls are lent.
#[derive(Clone, Copy)]
pub struct Stored {
    pub surfels: Surfels,
    pub clusters: Clusters,
    pub members: Members,
    pub rows: Rows,
    pub clusters_lent: ClustersLent,
    pub rows_lent: RowsLent,
}

// Surfels: their points, their normals and their areas.
#[derive(Clone, Copy)]
pub struct Surfels {
    pub p: [f32; 96],
    pub normals: [f32; 96],
    pub area: [f32; 32],
}

impl Stored {
    // Every place holds zero, and nothing is lent.
    pub fn nothing() -> Stored {
        Stored {
            surfels: Surfels {
                p: [0.0; 96],
                normals: [0.0; 96],
                area: [0.0; 32],
            },
            clusters: Clusters::filled(0),
            members: Members::filled(0),
            rows: Rows::filled(0),
            clusters_lent: ClustersLent::from([0; 16]),
            rows_lent: RowsLent::from([0; 16]),
        }
    }

    // Stores what the line says, and answers whether it says something: how many places of each table
    // a call is lent, one word for every place that a call can write, or words of a table.
    pub fn store(&mut self, line: &Line<'_>) -> bool {
        let w = line.given.padded();
        match line.name {
            b"lent_clusters" => self.clusters_lent = ClustersLent::from(w),
            b"lent_rows" => self.rows_lent = RowsLent::from(w),
            b"fill_clusters" => {
                self.clusters = Clusters::filled(w[0]);
                self.members = Members::filled(w[0]);
            }
            b"fill_rows" => self.rows = Rows::filled(w[0]),
            b"put_p" => put(&mut self.surfels.p, &line.given),
            b"put_normals" => put(&mut self.surfels.normals, &line.given),
            b"put_area" => put(&mut self.surfels.area, &line.given),
            b"put_cluster_p" => put(&mut self.clusters.p, &line.given),
            b"put_cluster_n" => put(&mut self.clusters.n, &line.given),
            b"put_cluster_area" => put(&mut self.clusters.area, &line.given),
            b"put_radius" => put(&mut self.clusters.radius, &line.given),
            _ => return false,
        }
        true
    }
}
