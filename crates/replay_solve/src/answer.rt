// What a question about the stored room answers.
use asked_room::{Counts, Lengths};
use replay::{Line, Words};
use stored_room::Stored;

// The result words of the question that a line is; none where it is no question.
pub fn to(s: &mut Stored, line: &Line<'_>) -> Option<Words> {
    match (line.name, line.given.as_slice()) {
        (b"solve", [n, nc, members, links, limit]) => {
            let told = Counts {
                n: *n as usize,
                nc: *nc as usize,
                members: *members as usize,
                links: *links as usize,
                limit: *limit as usize,
            };
            Some(asked_room::solve(s, told))
        }
        (b"reset", [light, direct, irr, rad]) => {
            let lengths = Lengths {
                light: *light as usize,
                direct: *direct as usize,
                irr: *irr as usize,
                rad: *rad as usize,
            };
            Some(asked_room::reset(s, lengths))
        }
        (b"records", [length]) => Some(asked_room::reset_records(s, *length as usize)),
        (table, [at]) => s.shown(table, *at as usize),
        _ => None,
    }
}
