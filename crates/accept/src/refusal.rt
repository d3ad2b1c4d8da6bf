// Why a call is refused.
ghost use Rattle.std.specs.Prelude.{◌≡◌, cond, Ok, Err};
ghost use Rattle.accept.specs.Refusal.{number_of, refusal_number};

// Why a call is refused. Of several that apply, the first counts; C functions return its number.
#[derive(Clone, Copy, Debug, PartialEq, Eq)]
pub enum Refusal {
    // A file is no room file.
    File = 1,
    // A count is over its limit.
    Count = 2,
    // Bounds, a cell, a radius, a resolution or a reach is out of its range.
    Range = 3,
    // A slice is shorter than its need, or lists that are reset are of unequal length.
    Length = 4,
    // A float of a table is out of its range.
    Float = 5,
    // A primitive's kind, or a part's base or range, fits no table.
    Scene = 6,
    // Starts, links, members or items do not fit together.
    Numbers = 7,
}

impl From<Refusal> for u32 {
    ghost from_gives = { λ r n. n ≡ number_of r };

    // The refusal's number.
    fn from(refusal: Refusal) -> u32 {
        refusal as u32
    }
}

// Nothing where the test passed, and the refusal where it failed. With `?`, the first test that
// failed refuses.
pub fn require(passed: bool, refusal: Refusal) -> Result<(), Refusal>
    ensures { result ≡ cond passed (Ok tt) (Err refusal) }
{
    if passed { Ok(()) } else { Err(refusal) }
}

// The number of what refuses a call, 0 where nothing does.
// Kept: a number, since C is told so, and 0 is none of a `Refusal`.
pub fn refusal_number(checked: Result<(), Refusal>) -> u32
    ensures { result ≡ refusal_number checked }
{
    match checked {
        Ok(()) => 0,
        Err(refusal) => refusal as u32,
    }
}
