// Four points in the grid of room Q, and the least and the largest cell.
use asked_grid::built;
use grid::Space;
use replay::{Words, shown};
use std::io;
use vector::Vec3;

// Prints the dimensions, starts and items of the grid of room Q with points at x = 3.5, 0.5, 0.5, 1.5.
pub fn points_of_q(rt: &impl Print) -> io::Result<()> {
    let p = [3.5, 0.5, 0.5, 0.5, 0.5, 0.5, 0.5, 0.5, 0.5, 1.5, 0.5, 0.5];
    let mut starts = [0u32; 5];
    let mut items = [0u32; 4];
    let answer = grid::grid_build(4, &p, space_of_q(), &mut starts, &mut items);
    println!(rt; "x = 3.5, 0.5, 0.5, 1.5 in the grid of room Q: cells, starts, items")?;
    println!(rt; "{}", built(answer))?;
    println!(rt; "{}", shown(&starts, 0))?;
    println!(rt; "{}", shown(&items, 0))
}

// Room Q's box, and the side of its cells.
pub fn space_of_q() -> Space {
    Space {
        lo: Vec3::zero(),
        hi: Vec3 {
            x: 4.0,
            y: 1.0,
            z: 1.0,
        },
        cell: 1.0,
    }
}

// Prints what cells of 0, 0.0001 and 10,000 are answered with, the first and the second in a box of
// 0.0003, the third in one of 10,000.
pub fn cells(rt: &impl Print) -> io::Result<()> {
    println!(rt; "cell 0, 0.0001, 10000")?;
    println!(rt; "{}", cells_of(0.0003, 0.0))?;
    println!(rt; "{}", cells_of(0.0003, 0.0001))?;
    println!(rt; "{}", cells_of(10000.0, 10000.0))
}

// What a grid of these cells over a cube of this side, with no point, is answered with.
fn cells_of(side: f32, cell: f32) -> Words {
    let mut starts = [0u32; 126];
    let mut items = [0u32; 1];
    let space = Space {
        lo: Vec3::zero(),
        hi: Vec3 {
            x: side,
            y: side,
            z: side,
        },
        cell,
    };
    built(grid::grid_build(0, &[], space, &mut starts, &mut items))
}
