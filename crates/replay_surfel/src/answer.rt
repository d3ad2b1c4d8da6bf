// What a question about the stored grid answers.
use float::of_bits;
use replay::{Line, Words, vec};
use stored_grid::Stored;

// The result words of the question that a line is; none where it is no question.
pub fn to(s: &mut Stored, line: &Line<'_>) -> Option<Words> {
    match (line.name, line.given.as_slice()) {
        (b"grid_build", [n]) => Some(asked_grid::grid_build(s, *n as usize)),
        (b"gather_all", [n, probes, radius]) => {
            let (n, probes) = (*n as usize, *probes as usize);
            Some(asked_grid::gather_all(s, n, probes, of_bits(*radius)))
        }
        (b"near", [n, x, y, z, reach]) => {
            let p = vec(*x, *y, *z);
            Some(asked_grid::near(s, *n as usize, p, *reach as usize))
        }
        (b"gather", [n, x, y, z, u, v, w, radius]) => {
            let (p, normal) = (vec(*x, *y, *z), vec(*u, *v, *w));
            Some(asked_grid::gather(s, *n as usize, p, normal, of_bits(*radius)))
        }
        (table, [at]) => s.shown(table, *at as usize),
        _ => None,
    }
}
