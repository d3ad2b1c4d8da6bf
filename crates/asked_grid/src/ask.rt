// The stored grid, its surfels and its probes lent to a question, of each table as much as is lent. What
// a call writes is stored.
use crate::words;
use grid::Grid;
use replay::{Words, counted, lent, lent_mut};
use stored_grid::{Cells, Lent, Stored};
use surfel::{Probes, Surfels};
use vector::Vec3;

// The grid of the first n surfels: its dimensions.
pub fn grid_build(s: &mut Stored, n: usize) -> Words {
    words::built(grid::grid_build(
        n,
        lent(&s.surfels.p, s.lent.p),
        s.cells.space,
        lent_mut(&mut s.cells.starts, s.lent.starts),
        lent_mut(&mut s.cells.items, s.lent.items),
    ))
}

// How many numbers are near p.
pub fn near(s: &mut Stored, n: usize, p: Vec3, reach: usize) -> Words {
    let grid = grid_of(&s.cells, n, s.lent);
    counted(grid::near(&grid, p, reach, lent_mut(&mut s.list, s.lent.list)))
}

// The light at a point with this normal.
pub fn gather(s: &Stored, n: usize, at: Vec3, normal: Vec3, radius: f32) -> Words {
    let grid = grid_of(&s.cells, n, s.lent);
    let surfels = surfels_of(&s.surfels, s.lent);
    words::read(surfel::gather(&grid, &surfels, at, normal, radius))
}

// The light at the first of the stored probes, so many.
pub fn gather_all(s: &mut Stored, n: usize, probes: usize, radius: f32) -> Words {
    let grid = grid_of(&s.cells, n, s.lent);
    let surfels = surfels_of(&s.surfels, s.lent);
    let probes = Probes {
        count: probes,
        p: lent(&s.probe_p, s.lent.probe_p),
        normals: lent(&s.probe_normals, s.lent.probe_normals),
        radius,
    };
    words::read_all(surfel::gather_all(
        &grid,
        &surfels,
        &probes,
        lent_mut(&mut s.seen, s.lent.seen),
        lent_mut(&mut s.light, s.lent.light),
    ))
}

// The grid of n points.
fn grid_of(cells: &Cells, n: usize, lengths: Lent) -> Grid<'_> {
    Grid {
        n,
        starts: lent(&cells.starts, lengths.starts),
        items: lent(&cells.items, lengths.items),
        space: cells.space,
    }
}

// The surfels that a reading weighs.
fn surfels_of(surfels: &stored_grid::Surfels, lengths: Lent) -> Surfels<'_> {
    Surfels {
        p: lent(&surfels.p, lengths.p),
        normals: lent(&surfels.normals, lengths.normals),
        irr: lent(&surfels.irr, lengths.irr),
    }
}
