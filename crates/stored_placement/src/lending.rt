ghost use Rattle.std.specs.Prelude.{◌≡◌};

// How many places of each table a call for placement is lent.
// Kept: lengths beside the tables and not with each, since four are of tables that the scene holds.
#[derive(Clone, Copy)]
pub struct Lent {
    pub kinds: usize,
    pub lengths: usize,
    pub plane_parts: usize,
    pub object_parts: usize,
    pub materials: usize,
    pub p: usize,
    pub n: usize,
    pub albedo: usize,
    pub area: usize,
    pub direct: usize,
    pub irr: usize,
    pub rad: usize,
    pub head: usize,
    pub next: usize,
}

// The lengths are in the order of the fields.
impl From<[u32; 16]> for Lent {
    ghost use Rattle.stored_placement.specs.Lent.{lent_of};

    ghost from_gives = { λ w l. l ≡ lent_of w };

    fn from(w: [u32; 16]) -> Lent {
        let [
            kinds,
            lengths,
            plane_parts,
            object_parts,
            materials,
            p,
            n,
            albedo,
            area,
            direct,
            irr,
            rad,
            head,
            next,
            ..
        ] = w.map(|w| w as usize);
        Lent {
            kinds,
            lengths,
            plane_parts,
            object_parts,
            materials,
            p,
            n,
            albedo,
            area,
            direct,
            irr,
            rad,
            head,
            next,
        }
    }
}
