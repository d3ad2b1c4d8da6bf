// What the tables hold that a call can write, sixteen words to a line: each column as far as it is lent
// and up to a surfel, scratch from a place on.
use replay::{Line, println_table};
use std::io;
use stored_placement::Stored;

// Prints the tables. The line's words: before which surfel the columns end, and the places from which
// the two tables of scratch are printed.
pub fn tables(rt: &impl Print, s: &Stored, line: &Line<'_>) -> io::Result<()> {
    let w = line.given.padded().map(|w| w as usize);
    let lent = s.lent;
    let (floats, vectors) = (w[0], 3 * w[0]);
    println_table(rt, &s.columns.p, 0, vectors.min(lent.p))?;
    println_table(rt, &s.columns.n, 0, vectors.min(lent.n))?;
    println_table(rt, &s.columns.albedo, 0, vectors.min(lent.albedo))?;
    println_table(rt, &s.columns.area, 0, floats.min(lent.area))?;
    println_table(rt, &s.light.direct, 0, vectors.min(lent.direct))?;
    println_table(rt, &s.light.irr, 0, vectors.min(lent.irr))?;
    println_table(rt, &s.light.rad, 0, vectors.min(lent.rad))?;
    println_table(rt, &s.scratch.head, w[1], lent.head)?;
    println_table(rt, &s.scratch.next, w[2], lent.next)
}
