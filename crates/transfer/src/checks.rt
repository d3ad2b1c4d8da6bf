// Whether a solve is accepted.
ghost use Rattle.std.specs.Prelude.{◌≡◌};
ghost use Rattle.transfer.specs.Checks.{counts_within, surfels_hold, clusters_hold, rows_hold, floats_fit, numbers_fit, check};

use crate::{Clusters, Room, Rows};
use accept::limits::{
    MAX_ALBEDO, MAX_AMOUNT, MAX_BOUNCES, MAX_CLUSTER_AREA, MAX_CLUSTERS, MAX_LINKS, MAX_SURFELS,
    MAX_WEIGHT,
};
use accept::{
    Refusal, at_most, floats_within, holds, links_ascend, numbers_below, ranges_contiguous, require,
};

// Why a solve is refused, if it is; irr, rad and scratch are given by their lengths.
#[tactic(auto, unfolding(crate::specs::Checks::check, accept::specs::Refusal::checked))]
pub fn check(
    room: &Room,
    limit: usize,
    irr: usize,
    rad: usize,
    scratch: usize,
) -> Result<(), Refusal>
    ensures { result ≡ check room.now limit irr rad scratch }
{
    require(counts_within(room, limit), Refusal::Count)?;
    let lent = surfels_hold(room, irr, rad)
        & clusters_hold(&room.clusters, scratch)
        & rows_hold(room.n, &room.rows);
    require(lent, Refusal::Length)?;
    require(floats_fit(room), Refusal::Float)?;
    require(numbers_fit(room), Refusal::Numbers)
}

// Whether the counts and the limit of bounces are within theirs.
#[tactic(auto, unfolding(crate::specs::Checks::counts_within))]
fn counts_within(room: &Room, limit: usize) -> bool
    ensures { result ≡ counts_within room.now.n room.now.clusters.nc room.now.clusters.members room.now.rows.links limit }
{
    at_most(room.n, MAX_SURFELS)
        & at_most(room.clusters.nc, MAX_CLUSTERS)
        & at_most(room.clusters.members, MAX_SURFELS)
        & at_most(room.rows.links, MAX_LINKS)
        & at_most(limit, MAX_BOUNCES)
}

// Whether the columns of the surfels are long enough.
#[tactic(auto, unfolding(crate::specs::Checks::surfels_hold))]
fn surfels_hold(room: &Room, irr: usize, rad: usize) -> bool
    ensures { result ≡ surfels_hold room.now irr rad }
{
    holds(room.albedo.len(), room.n, 3)
        & (room.n <= room.area.len())
        & holds(room.direct.len(), room.n, 3)
        & holds(irr, room.n, 3)
        & holds(rad, room.n, 3)
}

// Whether the columns of the clusters, the members and the scratch are long enough.
#[tactic(auto, unfolding(crate::specs::Checks::clusters_hold))]
fn clusters_hold(clusters: &Clusters, scratch: usize) -> bool
    ensures { result ≡ clusters_hold clusters.now scratch }
{
    (clusters.nc <= clusters.area.len())
        & (clusters.nc <= clusters.first.len())
        & (clusters.nc <= clusters.count.len())
        & (clusters.members <= clusters.member.len())
        & holds(scratch, clusters.nc, 3)
}

// Whether the starts and the links are long enough.
#[tactic(auto, unfolding(crate::specs::Checks::rows_hold))]
fn rows_hold(n: usize, rows: &Rows) -> bool
    ensures { result ≡ rows_hold n rows.now }
{
    (n < rows.starts.len()) & (rows.links <= rows.cluster.len()) & (rows.links <= rows.weight.len())
}

// Whether albedo, area, direct light, the clusters' areas and the links' weights are in range.
#[tactic(auto, unfolding(crate::specs::Checks::floats_fit))]
fn floats_fit(room: &Room) -> bool
    ensures { result ≡ floats_fit room.now }
{
    let clusters = &room.clusters;
    let rows = &room.rows;
    floats_within(room.albedo, room.n, 3, 0.0, MAX_ALBEDO)
        & floats_within(room.area, room.n, 1, 0.0, MAX_AMOUNT)
        & floats_within(room.direct, room.n, 3, 0.0, MAX_AMOUNT)
        & floats_within(clusters.area, clusters.nc, 1, 0.0, MAX_CLUSTER_AREA)
        & floats_within(rows.weight, rows.links, 1, 0.0, MAX_WEIGHT)
}

// Whether rows, links, ranges of members and members fit together.
#[tactic(auto, unfolding(crate::specs::Checks::numbers_fit))]
fn numbers_fit(room: &Room) -> bool
    ensures { result ≡ numbers_fit room.now }
{
    let clusters = &room.clusters;
    let rows = &room.rows;
    links_ascend(rows.starts, room.n, rows.cluster, rows.links)
        & numbers_below(rows.cluster, rows.links, clusters.nc)
        & ranges_contiguous(
            clusters.first,
            clusters.count,
            clusters.nc,
            clusters.members,
        )
        & numbers_below(clusters.member, clusters.members, room.n)
}
