// The grid and the reading. Each returns 0, or the number of the refusal and then writes nothing.
ghost use Rattle.std.specs.Prelude.{◌≡◌};
ghost use Rattle.vector.specs.Vector.{vec};
ghost use Rattle.grid.specs.Lent.{grid_in};
ghost use Rattle.surfel.specs.Checks.{probes_in};
ghost use Rattle.surfel.specs.Gathering.{surfels_in};
ghost use Rattle.outs.specs.Outs.{dims_outs, reading_outs};
ghost use Rattle.interflect.specs.Surfels.{interflect_grid_build, interflect_near, interflect_gather, interflect_gather_all};

use crate::vectors::vec;
use grid::{Grid, Space};
use surfel::{Probes, Surfels};

// Puts n points into the cells of the box from lo to hi: starts has where each cell begins in
// items, and dx, dy, dz become how many cells there are on each axis.
#[unsafe(no_mangle)]
pub extern "C" fn interflect_grid_build(
    n: usize,
    p: &[f32],
    lox: f32,
    loy: f32,
    loz: f32,
    hix: f32,
    hiy: f32,
    hiz: f32,
    cell: f32,
    starts: &mut [u32],
    items: &mut [u32],
    dx: &mut usize,
    dy: &mut usize,
    dz: &mut usize,
) -> u32
    ensures { (result, (dims_outs dx dy dz).exit, starts.new, items.new)
        ≡ interflect_grid_build n p.now (vec lox loy loz) (vec hix hiy hiz) cell (dims_outs dx dy dz).entry
        starts.old items.old }
{
    let space = Space {
        lo: vec(lox, loy, loz),
        hi: vec(hix, hiy, hiz),
        cell,
    };
    let answer = grid::grid_build(n, p, space, starts, items);
    outs::tell_dims(answer, dx, dy, dz)
}

// Lists the numbers of the points in the cells within reach of the one that px py pz lies in, and
// count becomes how many they are.
#[unsafe(no_mangle)]
pub extern "C" fn interflect_near(
    n: usize,
    starts: &[u32],
    items: &[u32],
    lox: f32,
    loy: f32,
    loz: f32,
    hix: f32,
    hiy: f32,
    hiz: f32,
    cell: f32,
    px: f32,
    py: f32,
    pz: f32,
    reach: usize,
    list: &mut [u32],
    count: &mut usize,
) -> u32
    ensures { (result, count.new, list.new)
        ≡ interflect_near (grid_in n starts items (vec lox loy loz) (vec hix hiy hiz) cell) (vec px py pz) reach
        count.old list.old }
{
    let space = Space {
        lo: vec(lox, loy, loz),
        hi: vec(hix, hiy, hiz),
        cell,
    };
    let p = vec(px, py, pz);
    let grid = Grid {
        n,
        starts,
        items,
        space,
    };
    let answer = grid::near(&grid, p, reach, list);
    outs::tell_count(answer, count)
}

// The light at atx aty atz with the normal nx ny nz: seen becomes 1 and x y z the light, or 0 and
// zeros where the point is unseen.
#[unsafe(no_mangle)]
pub extern "C" fn interflect_gather(
    n: usize,
    starts: &[u32],
    items: &[u32],
    lox: f32,
    loy: f32,
    loz: f32,
    hix: f32,
    hiy: f32,
    hiz: f32,
    cell: f32,
    p: &[f32],
    normals: &[f32],
    irr: &[f32],
    atx: f32,
    aty: f32,
    atz: f32,
    nx: f32,
    ny: f32,
    nz: f32,
    radius: f32,
    seen: &mut u32,
    x: &mut f32,
    y: &mut f32,
    z: &mut f32,
) -> u32
    ensures { (result, (reading_outs seen x y z).exit)
        ≡ interflect_gather (grid_in n starts items (vec lox loy loz) (vec hix hiy hiz) cell) (surfels_in p normals irr)
        (vec atx aty atz) (vec nx ny nz) radius (reading_outs seen x y z).entry }
{
    let space = Space {
        lo: vec(lox, loy, loz),
        hi: vec(hix, hiy, hiz),
        cell,
    };
    let at = vec(atx, aty, atz);
    let normal = vec(nx, ny, nz);
    let grid = Grid {
        n,
        starts,
        items,
        space,
    };
    let surfels = Surfels { p, normals, irr };
    let answer = surfel::gather(&grid, &surfels, at, normal, radius);
    outs::tell_reading(answer, seen, x, y, z)
}

// The light at each of many probes: seen becomes 1 and light the light, or 0 and zeros where the
// probe is unseen.
#[unsafe(no_mangle)]
pub extern "C" fn interflect_gather_all(
    n: usize,
    starts: &[u32],
    items: &[u32],
    lox: f32,
    loy: f32,
    loz: f32,
    hix: f32,
    hiy: f32,
    hiz: f32,
    cell: f32,
    p: &[f32],
    normals: &[f32],
    irr: &[f32],
    probes: usize,
    probe_p: &[f32],
    probe_normals: &[f32],
    radius: f32,
    seen: &mut [u32],
    light: &mut [f32],
) -> u32
    ensures { (result, seen.new, light.new)
        ≡ interflect_gather_all (grid_in n starts items (vec lox loy loz) (vec hix hiy hiz) cell) (surfels_in p normals irr)
        (probes_in probes probe_p probe_normals radius) seen.old light.old }
{
    let space = Space {
        lo: vec(lox, loy, loz),
        hi: vec(hix, hiy, hiz),
        cell,
    };
    let grid = Grid {
        n,
        starts,
        items,
        space,
    };
    let surfels = Surfels { p, normals, irr };
    let probes = Probes {
        count: probes,
        p: probe_p,
        normals: probe_normals,
        radius,
    };
    let answer = surfel::gather_all(&grid, &surfels, &probes, seen, light);
    accept::refusal_number(answer)
}
