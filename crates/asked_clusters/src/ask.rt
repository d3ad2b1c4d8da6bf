// The stored surfels lent to a call for clusters, of each table as much as is lent. What the call writes
// is stored.
use crate::words;
use clusters::{Columns, Cut, Surfels};
use replay::{Words, lent, lent_mut};
use stored_rows::Stored;

// The clusters of the first n surfels: how many, and how many members.
pub fn clusters(s: &mut Stored, n: usize, cut: Cut) -> Words {
    let lengths = s.clusters_lent;
    let surfels = Surfels {
        n,
        p: lent(&s.surfels.p, lengths.p),
        normals: lent(&s.surfels.normals, lengths.normals),
        area: lent(&s.surfels.area, lengths.area),
    };
    let columns = Columns {
        p: lent_mut(&mut s.clusters.p, lengths.cluster_p),
        n: lent_mut(&mut s.clusters.n, lengths.cluster_n),
        area: lent_mut(&mut s.clusters.area, lengths.cluster_area),
        radius: lent_mut(&mut s.clusters.radius, lengths.radius),
        first: lent_mut(&mut s.members.first, lengths.first),
        count: lent_mut(&mut s.members.count, lengths.count),
        member: lent_mut(&mut s.members.member, lengths.member),
    };
    let order = lent_mut(&mut s.members.order, lengths.order);
    let spare = lent_mut(&mut s.members.spare, lengths.spare);
    words::clustered(clusters::build_clusters(&surfels, cut, columns, order, spare))
}
