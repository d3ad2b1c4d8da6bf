// Answers as words: the number of a refusal alone, or zero and what was answered.
ghost use Rattle.std.specs.Prelude.{◌≡◌};
ghost use Rattle.asked_grid.specs.Answers.{built, read};

use accept::Refusal;
use grid::Dims;
use replay::{Words, short, told};
use surfel::Reading;

// The dimensions.
pub fn built(answer: Result<Dims, Refusal>) -> Words
    ensures { result ≡ built answer }
{
    told(answer.map(|dim| {
        Words::answered()
            .with(short(dim.x))
            .with(short(dim.y))
            .with(short(dim.z))
    }))
}

// 1 and the light, or 0.
pub fn read(answer: Result<Reading, Refusal>) -> Words
    ensures { result ≡ read answer }
{
    told(answer.map(|reading| match reading {
        Reading::Seen(light) => Words::answered().with(1).with_vector(light),
        Reading::Unseen => Words::answered().with(0),
    }))
}

// Nothing more.
pub fn read_all(answer: Result<(), Refusal>) -> Words {
    told(answer.map(|()| Words::answered()))
}
