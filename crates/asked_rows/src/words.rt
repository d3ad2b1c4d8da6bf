// The answer as words: the number of a refusal, or zero and what was answered.
use formfactor::{BuildError, Built};
use replay::{Words, full, refusal_word, short};

// How many links, the mean row sum and the evaluations; 8 and the row that does not fit.
pub fn built(answer: Result<Built, BuildError>) -> Words {
    match answer {
        Ok(made) => Words::answered()
            .with(short(made.links))
            .with_float(made.mean_row_sum)
            .with(short(made.evals)),
        Err(BuildError::Refused(refusal)) => refusal_word(refusal),
        Err(BuildError::Full(row)) => full(row),
    }
}
