// Answers as words: the number of a refusal alone, or zero and what was answered.
use accept::Refusal;
use replay::{Words, short, told};
use solve::SolveStats;

// How many bounces, and the last change.
pub fn solved(answer: Result<SolveStats, Refusal>) -> Words {
    told(answer.map(|made| {
        Words::answered()
            .with(short(made.bounces))
            .with_float(made.change)
    }))
}

// Nothing more.
pub fn reset(answer: Result<(), Refusal>) -> Words {
    told(answer.map(|()| Words::answered()))
}
