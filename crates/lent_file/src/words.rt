// The answer as words: the number of a refusal alone, or zero and what stands in the file beside its
// columns.
use accept::Refusal;
use replay::{Words, told};
use room::Head;

// The words of an answer.
pub fn read(answer: Result<Head, Refusal>) -> Words {
    told(answer.map(|head| with_bounds(with_counts(Words::answered(), head), head)))
}

// These words, the five counts and the limit of bounces.
fn with_counts(words: Words, head: Head) -> Words {
    let c = head.counts;
    let tables = words.with(c.surfels).with(c.clusters).with(c.members);
    tables.with(c.links).with(c.probes).with(c.limit)
}

// These words, the box of the grid, the side of a cell and the radius of a reading.
fn with_bounds(words: Words, head: Head) -> Words {
    let b = head.bounds;
    let sides = words.with_vector(b.lo).with_vector(b.hi);
    sides.with_float(b.cell).with_float(b.radius)
}
