// The numbers near a point, counted and listed.
// Kept: loops over layers and rows. Tried by the iterator `Rows`: a call took 2.4 times as long where 262,144
// rows have a number each, and 3 times where they have none.
ghost use Rattle.std.specs.Prelude.{◌≡◌, ◌+◌, ◌*◌, ◌-◌, ◌<◌, ◌≤◌, length};
ghost use Rattle.std.proofs.Math.Seq.{slice};
ghost use Rattle.std.proofs.lemmas.List.Edits.{sets};
ghost use Rattle.accept.specs.Limits.{max_surfels};
ghost use Rattle.grid.specs.Rows.{layer_listed, block_listed, row_from, row_to, RowsHeld, Small};

use crate::Block;
use accept::wide;

// Places of items, from the first up to the second.
#[derive(Clone, Copy)]
struct Row {
    from: usize,
    to: usize,
}

// How many numbers a block lists.
pub fn count_block(starts: &[u32], items: &[u32], n: usize, b: Block) -> usize
    requires rows_held { RowsHeld starts.now items.now n b }
    requires small { Small n b }
    ensures { result ≡ length (block_listed starts.now items.now b) }
{
    let mut count = 0;
    for z in 0..b.layers {
        count += count_layer(starts, items, n, b, z);
    }
    count
}

// How many numbers layer z of a block lists.
fn count_layer(starts: &[u32], items: &[u32], n: usize, b: Block, z: usize) -> usize
    requires rows_held { RowsHeld starts.now items.now n b }
    requires small { Small n b }
    requires z_lt_layers { z < b.layers }
    ensures value { result ≡ length (layer_listed starts.now items.now b z) }
    ensures upper_bound { result ≤ 512 * max_surfels }
{
    let mut count = 0;
    for y in 0..b.rows {
        let row = row_at(starts, items, n, b, z, y);
        count += row.to - row.from;
    }
    count
}

// The numbers of a block, listed from place 0 on.
pub fn list_block(starts: &[u32], items: &[u32], n: usize, b: Block, list: &mut [u32])
    requires rows_held { RowsHeld starts.now items.now n b }
    requires b_in_bounds { length (block_listed starts.now items.now b) ≤ length list.old }
    ensures { list.new ≡ sets list.old 0 (block_listed starts.now items.now b) }
{
    let mut at = 0;
    for z in 0..b.layers {
        at = list_layer(starts, items, n, b, z, list, at);
    }
}

// The numbers of layer z of a block, listed from place `at` on; the place after them.
fn list_layer(
    starts: &[u32],
    items: &[u32],
    n: usize,
    b: Block,
    z: usize,
    list: &mut [u32],
    at: usize,
) -> usize
    requires rows_held { RowsHeld starts.now items.now n b }
    requires z_lt_layers { z < b.layers }
    requires z_in_bounds { at + length (layer_listed starts.now items.now b z) ≤ length list.old }
    ensures value { result ≡ at + length (layer_listed starts.now items.now b z) }
    ensures list_after { list.new ≡ sets list.old at (layer_listed starts.now items.now b z) }
{
    let mut k = at;
    for y in 0..b.rows {
        let row = row_at(starts, items, n, b, z, y);
        list_row(items, row.from, row.to, list, k);
        k += row.to - row.from;
    }
    k
}

// The numbers of items from one place up to another, listed from place `at` on.
fn list_row(items: &[u32], from: usize, to: usize, list: &mut [u32], at: usize)
    requires from_le_to { from ≤ to }
    requires to_in_bounds { to ≤ length items.now }
    requires from_in_bounds { at + (to - from) ≤ length list.old }
    ensures { list.new ≡ sets list.old at (slice from to items.now) }
{
    for j in 0..to - from {
        list[at + j] = items[from + j];
    }
}

// Where the numbers of row y of layer z of a block stand in items.
fn row_at(starts: &[u32], items: &[u32], n: usize, b: Block, z: usize, y: usize) -> Row
    requires rows_held { RowsHeld starts.now items.now n b }
    requires z_lt_layers { z < b.layers }
    requires y_lt_rows { y < b.rows }
    ensures from_value { result.from ≡ row_from starts.now b y z }
    ensures to_value { result.to ≡ row_to starts.now b y z }
{
    let c = b.first + b.layer_step * z + b.row_step * y;
    Row {
        from: wide(starts[c]),
        to: wide(starts[c + b.wide]),
    }
}
