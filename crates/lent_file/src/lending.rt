ghost use Rattle.std.specs.Prelude.{◌≡◌};

// How many places of each column are lent.
// Kept: lengths beside the columns and not with each, since one line gives all of them, in this order.
#[derive(Clone, Copy)]
pub struct Lent {
    pub p: usize,
    pub normals: usize,
    pub albedo: usize,
    pub area: usize,
    pub direct: usize,
    pub cluster_area: usize,
    pub first: usize,
    pub count: usize,
    pub member: usize,
    pub starts: usize,
    pub link_cluster: usize,
    pub link_weight: usize,
    pub probe_p: usize,
    pub probe_normals: usize,
}

// The lengths are in the order of the fields.
impl From<[u32; 16]> for Lent {
    ghost use Rattle.lent_file.specs.Lent.{lent_of};

    ghost from_gives = { λ w l. l ≡ lent_of w };

    fn from(w: [u32; 16]) -> Lent {
        let [
            p,
            normals,
            albedo,
            area,
            direct,
            cluster_area,
            first,
            count,
            member,
            starts,
            link_cluster,
            link_weight,
            probe_p,
            probe_normals,
            ..
        ] = w.map(|w| w as usize);
        Lent {
            p,
            normals,
            albedo,
            area,
            direct,
            cluster_area,
            first,
            count,
            member,
            starts,
            link_cluster,
            link_weight,
            probe_p,
            probe_normals,
        }
    }
}
