// The stored room lent to a call, of each table as much as is lent. What a call writes is stored.
use crate::{Counts, Lengths, words};
use records::Light;
use replay::{Words, lent, lent_mut};
use stored_room::Stored;
use transfer::{Clusters, Room, Rows};

// The solve: how many bounces, and the last change.
pub fn solve(s: &mut Stored, told: Counts) -> Words {
    let room = Room {
        n: told.n,
        albedo: lent(&s.albedo, s.lent.albedo),
        area: lent(&s.area, s.lent.area),
        direct: lent(&s.direct, s.lent.direct),
        clusters: Clusters {
            nc: told.nc,
            members: told.members,
            area: lent(&s.cluster_area, s.lent.cluster_area),
            first: lent(&s.first, s.lent.first),
            count: lent(&s.count, s.lent.count),
            member: lent(&s.member, s.lent.member),
        },
        rows: Rows {
            links: told.links,
            starts: lent(&s.starts, s.lent.starts),
            cluster: lent(&s.link_cluster, s.lent.link_cluster),
            weight: lent(&s.link_weight, s.lent.link_weight),
        },
    };
    words::solved(solve::solve(
        &room,
        told.limit,
        lent_mut(&mut s.irr, s.lent.irr),
        lent_mut(&mut s.rad, s.lent.rad),
        lent_mut(&mut s.scratch, s.lent.scratch),
    ))
}

// The reset to the stored light, of lists of these lengths.
pub fn reset(s: &mut Stored, lengths: Lengths) -> Words {
    words::reset(reset::reset(
        lent(&s.light, lengths.light),
        lent_mut(&mut s.direct, lengths.direct),
        lent_mut(&mut s.irr, lengths.irr),
        lent_mut(&mut s.rad, lengths.rad),
    ))
}

// The reset of the first four surfels' light, as records, to the first floats of the stored light, so
// many.
pub fn reset_records(s: &mut Stored, length: usize) -> Words {
    let given = std::array::from_fn(|i| record_of(s, i));
    let four = lent_records::reset_four(lent(&s.light, length), given);
    for (i, record) in four.records.into_iter().enumerate() {
        put_record(s, i, record);
    }
    words::reset(four.answer)
}

// The light of surfel i.
fn record_of(s: &Stored, i: usize) -> Light {
    Light {
        direct: vector::at(&s.direct, i),
        irr: vector::at(&s.irr, i),
        rad: vector::at(&s.rad, i),
    }
}

// Stores the light of surfel i.
fn put_record(s: &mut Stored, i: usize, record: Light) {
    vector::put(&mut s.direct, i, record.direct);
    vector::put(&mut s.irr, i, record.irr);
    vector::put(&mut s.rad, i, record.rad);
}
