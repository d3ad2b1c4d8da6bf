// Room Q read at its surfel, with radius 1 and with radius 0.
use crate::{grids, solves};
use accept::Refusal;
use grid::Grid;
use std::io;
use surfel::{Reading, Surfels};
use vector::Vec3;

// Prints the reading at the surfel with radius 1, and with radius 0, where it is unseen.
pub fn radius_of_q(rt: &impl Print) -> io::Result<()> {
    let solved = solves::solve_q(12, solves::reset_q());
    let irr = solved.irr;
    println!(rt; "room Q read at its surfel, radius 1 and radius 0")?;
    println!(rt; "{}", asked_grid::read(read_q(irr, 1.0)))?;
    println!(rt; "{}", asked_grid::read(read_q(irr, 0.0)))
}

// Room Q, with this irradiance, read at its surfel.
fn read_q(irr: [f32; 3], radius: f32) -> Result<Reading, Refusal> {
    let p = [0.0; 3];
    let mut starts = [0u32; 5];
    let mut items = [0u32; 1];
    let normal = Vec3 {
        x: 0.0,
        y: 0.0,
        z: 1.0,
    };
    let space = grids::space_of_q();
    grid::grid_build(1, &p, space, &mut starts, &mut items)?;
    let grid = Grid {
        n: 1,
        starts: &starts,
        items: &items,
        space,
    };
    let surfels = Surfels {
        p: &p,
        normals: &[0.0, 0.0, 1.0],
        irr: &irr,
    };
    surfel::gather(&grid, &surfels, Vec3::zero(), normal, radius)
}
