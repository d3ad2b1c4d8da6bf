// Room Q of document 01, solved with a limit of 7, and with limits of 5 and 2 one after the other.
use accept::Refusal;
use float::bits_of;
use replay::{Words, refusal_word, short};
use solve::SolveStats;
use std::io;
use transfer::{Clusters, Room, Rows};

// Room Q as solves left it: what the last answered, and the light.
#[derive(Clone, Copy)]
pub struct SolvedQ {
    pub answer: Result<SolveStats, Refusal>,
    pub irr: [f32; 3],
    pub rad: [f32; 3],
    pub light: [f32; 3],
}

// Prints what each solve answers, and irr, rad and the cluster's light after it, and whether two solves
// leave what one does.
pub fn limits_of_q(rt: &impl Print) -> io::Result<()> {
    let five = solve_q(5, reset_q());
    let two = solve_q(2, five);
    let seven = solve_q(7, reset_q());
    println!(rt; "room Q, limit 5 and then limit 2")?;
    println!(rt; "{}", words_of(five))?;
    println!(rt; "{}", words_of(two))?;
    println!(rt; "room Q, limit 7")?;
    println!(rt; "{}", words_of(seven))?;
    if alike(five, two, seven) {
        println!(rt; "as many bounces, the same last change and light")
    } else {
        println!(rt; "different")
    }
}

// Room Q after a reset.
pub fn reset_q() -> SolvedQ {
    SolvedQ {
        answer: Ok(SolveStats {
            bounces: 0,
            change: 0.0,
        }),
        irr: [0.0; 3],
        rad: [1.0; 3],
        light: [0.0; 3],
    }
}

// Room Q after a further solve with this limit.
pub fn solve_q(limit: usize, q: SolvedQ) -> SolvedQ {
    let mut irr = q.irr;
    let mut rad = q.rad;
    let mut light = q.light;
    let room = Room {
        n: 1,
        albedo: &[0.5, 0.5, 0.5],
        area: &[1.0],
        direct: &[1.0, 1.0, 1.0],
        clusters: Clusters {
            nc: 1,
            members: 1,
            area: &[1.0],
            first: &[0],
            count: &[1],
            member: &[0],
        },
        rows: Rows {
            links: 1,
            starts: &[0, 1],
            cluster: &[0],
            weight: &[0.5],
        },
    };
    let answer = solve::solve(&room, limit, &mut irr, &mut rad, &mut light);
    SolvedQ {
        answer,
        irr,
        rad,
        light,
    }
}

// The twelve words of a solved room.
fn words_of(q: SolvedQ) -> Words {
    let words = match q.answer {
        Ok(made) => Words::answered()
            .with(short(made.bounces))
            .with_float(made.change),
        Err(refusal) => refusal_word(refusal).with(0).with_float(0.0),
    };
    words
        .with_vector(vector::at(&q.irr, 0))
        .with_vector(vector::at(&q.rad, 0))
        .with_vector(vector::at(&q.light, 0))
}

// Whether no solve was refused, and two make as many bounces as one, end with the same last change, and
// leave the same light, bit for bit.
fn alike(first: SolvedQ, last: SolvedQ, once: SolvedQ) -> bool {
    let (Ok(five), Ok(two), Ok(seven)) = (first.answer, last.answer, once.answer) else {
        return false;
    };
    short(five.bounces) as u64 + short(two.bounces) as u64 == short(seven.bounces) as u64
        && bits_of(two.change) == bits_of(seven.change)
        && same_bits(last.irr, once.irr)
        && same_bits(last.rad, once.rad)
        && same_bits(last.light, once.light)
}

// Whether two vectors have the same bits.
fn same_bits(a: [f32; 3], b: [f32; 3]) -> bool {
    a.map(|x| bits_of(x)) == b.map(|x| bits_of(x))
}
