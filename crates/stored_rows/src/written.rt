// What the two calls write.
ghost use Rattle.std.specs.Prelude.{◌≡◌};

use float::of_bits;

// Clusters: their centres, normals, areas and radii. A call for clusters writes them, and a call for
// rows reads them.
#[derive(Clone, Copy)]
pub struct Clusters {
    pub p: [f32; 96],
    pub n: [f32; 96],
    pub area: [f32; 32],
    pub radius: [f32; 32],
}

impl Clusters {
    ghost use Rattle.stored_rows.specs.Written.{clusters_of};

    // One word in every place.
    pub fn filled(word: u32) -> Clusters
        ensures { result ≡ clusters_of word }
    {
        let x = of_bits(word);
        Clusters {
            p: [x; 96],
            n: [x; 96],
            area: [x; 32],
            radius: [x; 32],
        }
    }
}

// What else a call for clusters writes: the ranges of their members, the members, and its scratch,
// `order` and `spare`.
#[derive(Clone, Copy)]
pub struct Members {
    pub first: [u32; 32],
    pub count: [u32; 32],
    pub member: [u32; 32],
    pub order: [u32; 32],
    pub spare: [u32; 32],
}

impl Members {
    ghost use Rattle.stored_rows.specs.Written.{members_of};

    // One word in every place.
    pub fn filled(word: u32) -> Members
        ensures { result ≡ members_of word }
    {
        Members {
            first: [word; 32],
            count: [word; 32],
            member: [word; 32],
            order: [word; 32],
            spare: [word; 32],
        }
    }
}

// Rows: what a call for rows writes. `link` and `weight` are its scratch.
#[derive(Clone, Copy)]
pub struct Rows {
    pub starts: [u32; 36],
    pub link_cluster: [u32; 160],
    pub link_weight: [f32; 160],
    pub link: [u32; 32],
    pub weight: [f32; 32],
}

impl Rows {
    ghost use Rattle.stored_rows.specs.Written.{rows_of};

    // One word in every place.
    pub fn filled(word: u32) -> Rows
        ensures { result ≡ rows_of word }
    {
        let x = of_bits(word);
        Rows {
            starts: [word; 36],
            link_cluster: [word; 160],
            link_weight: [x; 160],
            link: [word; 32],
            weight: [x; 32],
        }
    }
}
