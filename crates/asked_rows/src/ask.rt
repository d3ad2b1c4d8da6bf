// The stored surfels and clusters lent to a call for rows, of each table as much as is lent, and the
// stored scene, all of its places. What the call writes is stored.
use crate::{Told, words};
use formfactor::{Emitters, Surfels};
use replay::{Words, lent, lent_mut};
use stored_rows::Stored;

// The rows: how many links, the mean row sum and the evaluations.
pub fn rows(scene: &stored::Stored, s: &mut Stored, told: Told) -> Words {
    let lengths = s.rows_lent;
    let surfels = Surfels {
        n: told.n,
        p: lent(&s.surfels.p, lengths.p),
        normals: lent(&s.surfels.normals, lengths.normals),
    };
    let emitters = Emitters {
        nc: told.nc,
        p: lent(&s.clusters.p, lengths.cluster_p),
        n: lent(&s.clusters.n, lengths.cluster_n),
        area: lent(&s.clusters.area, lengths.cluster_area),
        radius: lent(&s.clusters.radius, lengths.radius),
    };
    words::built(formfactor::build(
        &scene.scene(),
        told.lo,
        told.hi,
        &surfels,
        &emitters,
        lent_mut(&mut s.rows.starts, lengths.starts),
        lent_mut(&mut s.rows.link_cluster, lengths.link_cluster),
        lent_mut(&mut s.rows.link_weight, lengths.link_weight),
        lent_mut(&mut s.rows.link, lengths.link),
        lent_mut(&mut s.rows.weight, lengths.weight),
    ))
}
