ghost use Rattle.std.specs.Prelude.{◌≡◌};

// How much of each table a solve is lent.
// Kept: lengths beside the tables and not with each, since one line gives all of them, in this order.
#[derive(Clone, Copy)]
pub struct Lent {
    pub albedo: usize,
    pub area: usize,
    pub direct: usize,
    pub cluster_area: usize,
    pub first: usize,
    pub count: usize,
    pub member: usize,
    pub starts: usize,
    pub link_cluster: usize,
    pub link_weight: usize,
    pub irr: usize,
    pub rad: usize,
    pub scratch: usize,
}

// The lengths are in the order of the fields.
impl From<[u32; 16]> for Lent {
    ghost use Rattle.stored_room.specs.Lent.{lent_of};

    ghost from_gives = { λ w l. l ≡ lent_of w };

    fn from(w: [u32; 16]) -> Lent {
        let [
            albedo,
            area,
            direct,
            cluster_area,
            first,
            count,
            member,
            starts,
            link_cluster,
            link_weight,
            irr,
            rad,
            scratch,
            ..
        ] = w.map(|w| w as usize);
        Lent {
            albedo,
            area,
            direct,
            cluster_area,
            first,
            count,
            member,
            starts,
            link_cluster,
            link_weight,
            irr,
            rad,
            scratch,
        }
    }
}
