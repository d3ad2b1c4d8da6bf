// What a question about the stored scene answers.
use float::of_bits;
use replay::{Line, Words, vec};
use scene::Ray;
use stored::Stored;

// The result words of the question that a line is; none where it is no question.
pub fn to(s: &Stored, line: &Line<'_>) -> Option<Words> {
    let w = line.given.padded();
    let p = vec(w[0], w[1], w[2]);
    Some(match (line.name, line.given.len()) {
        (b"dist_mat", 3) => asked::dist_mat(s, p),
        (b"dist_any", 3) => asked::dist_any(s, p),
        (b"normal", 3) => asked::normal(s, p),
        (b"normal_any", 3) => asked::normal_any(s, p),
        (b"project", 5) => asked::project(s, p, of_bits(w[3]), of_bits(w[4])),
        (b"closure", 7) => asked::closure(s, p, vec(w[3], w[4], w[5]), of_bits(w[6])),
        (b"closure_any", 7) => asked::closure_any(s, p, vec(w[3], w[4], w[5]), of_bits(w[6])),
        (b"trace", 8) => asked::trace(s, ray(w)),
        (b"trace_any", 8) => asked::trace_any(s, ray(w)),
        (b"soft_shadow", 9) => asked::soft_shadow(s, ray(w), of_bits(w[8])),
        (b"shadow_any", 9) => asked::shadow_any(s, ray(w), of_bits(w[8])),
        _ => return None,
    })
}

// The ray that eight words tell.
fn ray(w: [u32; 16]) -> Ray {
    Ray {
        ro: vec(w[0], w[1], w[2]),
        rd: vec(w[3], w[4], w[5]),
        tmin: of_bits(w[6]),
        tmax: of_bits(w[7]),
    }
}
