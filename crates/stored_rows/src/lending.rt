// How much of each table the two calls are lent.
ghost use Rattle.std.specs.Prelude.{◌≡◌};

// How many places of each table a call for clusters is lent.
// Kept: lengths beside the tables and not with each, since the two calls are lent the same tables as far
// as each says for itself.
#[derive(Clone, Copy)]
pub struct ClustersLent {
    pub p: usize,
    pub normals: usize,
    pub area: usize,
    pub cluster_p: usize,
    pub cluster_n: usize,
    pub cluster_area: usize,
    pub radius: usize,
    pub first: usize,
    pub count: usize,
    pub member: usize,
    pub order: usize,
    pub spare: usize,
}

// The lengths are in the order of the fields.
impl From<[u32; 16]> for ClustersLent {
    ghost use Rattle.stored_rows.specs.Lent.{clusters_lent_of};

    ghost from_gives = { λ w l. l ≡ clusters_lent_of w };

    fn from(w: [u32; 16]) -> ClustersLent {
        let [
            p,
            normals,
            area,
            cluster_p,
            cluster_n,
            cluster_area,
            radius,
            first,
            count,
            member,
            order,
            spare,
            ..
        ] = w.map(|w| w as usize);
        ClustersLent {
            p,
            normals,
            area,
            cluster_p,
            cluster_n,
            cluster_area,
            radius,
            first,
            count,
            member,
            order,
            spare,
        }
    }
}

// How many places of each table a call for rows is lent.
#[derive(Clone, Copy)]
pub struct RowsLent {
    pub p: usize,
    pub normals: usize,
    pub cluster_p: usize,
    pub cluster_n: usize,
    pub cluster_area: usize,
    pub radius: usize,
    pub starts: usize,
    pub link_cluster: usize,
    pub link_weight: usize,
    pub link: usize,
    pub weight: usize,
}

// The lengths are in the order of the fields.
impl From<[u32; 16]> for RowsLent {
    ghost use Rattle.stored_rows.specs.Lent.{rows_lent_of};

    ghost from_gives = { λ w l. l ≡ rows_lent_of w };

    fn from(w: [u32; 16]) -> RowsLent {
        let [
            p,
            normals,
            cluster_p,
            cluster_n,
            cluster_area,
            radius,
            starts,
            link_cluster,
            link_weight,
            link,
            weight,
            ..
        ] = w.map(|w| w as usize);
        RowsLent {
            p,
            normals,
            cluster_p,
            cluster_n,
            cluster_area,
            radius,
            starts,
            link_cluster,
            link_weight,
            link,
            weight,
        }
    }
}
