// Grids whose starts and items fit together, and grids whose don't.
use super::*;

// Of two cells, that lie along x.
fn two_cells<'a>(n: usize, starts: &'a [u32], items: &'a [u32]) -> Grid<'a> {
    let space = Space {
        lo: Vec3::zero(),
        hi: Vec3 {
            x: 2.0,
            y: 1.0,
            z: 1.0,
        },
        cell: 1.0,
    };
    Grid {
        n,
        starts,
        items,
        space,
    }
}

#[test]
fn a_list_that_fits(rt: HostRuntime) {
    for (n, starts, items) in [
        (0, [0, 0, 0], [9, 9]),
        (1, [0, 1, 1], [0, 9]),
        (2, [0, 1, 2], [1, 0]),
        (2, [0, 0, 2], [0, 0]),
    ] {
        let grid = two_cells(n, &starts, &items);
        assert!(rt; grid.list_fits(), "{n} points");
        assert!(rt; Fitted::new(&grid).is_some(), "{n} points");
    }
}

// The starts end elsewhere, begin elsewhere, or fall; an item is no point's number.
#[test]
fn a_list_that_does_not(rt: HostRuntime) {
    for (starts, items) in [
        ([0, 1, 1], [1, 0]),
        ([1, 1, 2], [1, 0]),
        ([0, 3, 2], [1, 0]),
        ([0, 1, 2], [1, 2]),
    ] {
        let grid = two_cells(2, &starts, &items);
        assert!(rt; !grid.list_fits(), "{starts:?} {items:?}");
        assert!(rt; Fitted::new(&grid).is_none(), "{starts:?} {items:?}");
    }
}

// Starts for one cell of the two, and an item too few.
#[test]
fn a_list_that_is_short(rt: HostRuntime) {
    assert!(rt; !two_cells(2, &[0, 2], &[1, 0]).list_fits());
    assert!(rt; !two_cells(2, &[0, 1, 2], &[1]).list_fits());
}
