// Answers as words: the number of a refusal alone, or zero and what was answered.
use accept::Refusal;
use clusters::Clustered;
use replay::{Words, short, told};
use vector::Vec3;

// The bucket of a normal. It is never refused.
pub fn bucket(n: Vec3) -> Words {
    Words::none().with(short(clusters::normal_bucket(n)))
}

// How many clusters, and how many members.
pub fn clustered(answer: Result<Clustered, Refusal>) -> Words {
    told(answer.map(|made| {
        Words::answered()
            .with(short(made.clusters))
            .with(short(made.members))
    }))
}
