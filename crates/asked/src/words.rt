// Answers as words: the number of a refusal alone, or zero and what was answered.
use accept::Refusal;
use field::DistHit;
use replay::{Words, told};
use scene::{Closure, Shadow, Traced};
use vector::Vec3;

// The distance and the material.
pub fn distance(answer: Result<DistHit, Refusal>) -> Words {
    told(answer.map(|hit| Words::answered().with_float(hit.d).with(hit.mat)))
}

// The normal.
pub fn normal(answer: Result<Vec3, Refusal>) -> Words {
    told(answer.map(|n| Words::answered().with_vector(n)))
}

// 1 and the point of the surface, or 0.
pub fn projected(answer: Result<Option<Vec3>, Refusal>) -> Words {
    told(answer.map(|landed| match landed {
        Some(p) => Words::answered().with(1).with_vector(p),
        None => Words::answered().with(0),
    }))
}

// 1 and the hit, or 0; then the evaluations.
pub fn traced(answer: Result<Traced, Refusal>) -> Words {
    told(answer.map(|traced| found(traced).with(traced.evals)))
}

// 1 and the hit, or 0.
fn found(traced: Traced) -> Words {
    match traced.found {
        Some(hit) => Words::answered()
            .with(1)
            .with_float(hit.t)
            .with_vector(hit.p)
            .with_vector(hit.n)
            .with(hit.mat),
        None => Words::answered().with(0),
    }
}

// The visibility and the evaluations.
pub fn shadow(answer: Result<Shadow, Refusal>) -> Words {
    told(answer.map(|seen| Words::answered()
        .with_float(seen.visibility)
        .with(seen.evals)))
}

// The open part and the evaluations.
pub fn closure(answer: Result<Closure, Refusal>) -> Words {
    told(answer.map(|open| Words::answered().with_float(open.sky).with(open.evals)))
}
