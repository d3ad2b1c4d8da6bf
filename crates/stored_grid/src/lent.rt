// What the words of a line say of a call: its box, and how much of each table it is lent.
ghost use Rattle.std.specs.Prelude.{◌≡◌};
ghost use Rattle.stored_grid.specs.Stores.{space_of};

use float::of_bits;
use grid::Space;
use replay::vec;

// The box that the words say, and the side of its cells.
pub fn space_of(w: [u32; 16]) -> Space
    ensures { result ≡ space_of w }
{
    Space {
        lo: vec(w[0], w[1], w[2]),
        hi: vec(w[3], w[4], w[5]),
        cell: of_bits(w[6]),
    }
}

// How many places of each table are lent.
// Kept: lengths beside the tables and not with each, since one line gives all of them, in this order.
#[derive(Clone, Copy)]
pub struct Lent {
    pub p: usize,
    pub normals: usize,
    pub irr: usize,
    pub starts: usize,
    pub items: usize,
    pub list: usize,
    pub probe_p: usize,
    pub probe_normals: usize,
    pub seen: usize,
    pub light: usize,
}

// The lengths are in the order of the fields.
impl From<[u32; 16]> for Lent {
    ghost use Rattle.stored_grid.specs.Lent.{lent_of};

    ghost from_gives = { λ w l. l ≡ lent_of w };

    fn from(w: [u32; 16]) -> Lent {
        let [
            p,
            normals,
            irr,
            starts,
            items,
            list,
            probe_p,
            probe_normals,
            seen,
            light,
            ..
        ] = w.map(|w| w as usize);
        Lent {
            p,
            normals,
            irr,
            starts,
            items,
            list,
            probe_p,
            probe_normals,
            seen,
            light,
        }
    }
}
