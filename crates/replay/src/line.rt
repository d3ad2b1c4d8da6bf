// Lines, their names and their words.
ghost use Rattle.std.specs.Prelude.{◌≡◌, ◌==◌, position, MatchOption};
ghost use Rattle.replay.specs.Lines.{line_length as Lines·line_length, name_of as Lines·name_of, words_after, words_in as Lines·words_in, words_of as Lines·words_of};
ghost use Rattle.replay.specs.Words.{none};

use crate::Words;

// The lines of a text, in order: each ends after its newline, the last maybe without one.
// Kept: the library's `split_inclusive` gives the same pieces, but its clause tells one step at a time;
// here one definition, `lines_of`, tells all of them, and refuses a line without its newline.
#[derive(Drop)]
pub struct Lines<'a>(pub &'a [u8]);

impl<'a> Iterator for Lines<'a> {
    ghost use Rattle.std.specs.Iterator.{YieldsFirstRef, item_count};
    ghost use Rattle.replay.specs.Lines.{lines_of};

    type Item = &'a [u8];

    ghost next_gives = { YieldsFirstRef (λ s. lines_of s.0.now) };

    ghost remaining = { item_count (λ s. lines_of s.0.now) };

    fn next(&mut self) -> Option<&'a [u8]> {
        if self.0.is_empty() {
            return None;
        }
        let (line, others) = self.0.split_at(line_length(self.0));
        self.0 = others;
        Some(line)
    }
}

// How many bytes the first line of s has, its newline counted.
fn line_length(s: &[u8]) -> usize
    ensures { result ≡ Lines·line_length s.now }
{
    place_of(b'\n', s).map_or(s.len(), |at| at + 1)
}

// A line: its name, which ends before its first space, and the words after it.
#[derive(Drop)]
pub struct Line<'a> {
    pub name: &'a [u8],
    pub given: Words,
}

impl<'a> Line<'a> {
    // The line that these bytes are; none where anything but up to 16 words and a newline stands after
    // the name. It has no name where they have no space.
    pub fn of(line: &'a [u8]) -> Option<Line<'a>>
        ensures { MatchOption result (words_after line.now ≡ None) (λ l. (l.name.now ≡ Lines·name_of line.now) × (words_after line.now ≡ Some l.given)) }
    {
        let name = name_of(line);
        let given = words_of(&line[name.len()..])?;
        Some(Line { name, given })
    }

    // What is left of a line whose words can't be read: its name, and no words.
    pub fn unread(line: &'a [u8]) -> Line<'a>
        ensures { (result.name.now ≡ Lines·name_of line.now) × (result.given ≡ none) }
    {
        Line {
            name: name_of(line),
            given: Words::none(),
        }
    }
}

// The bytes before the first space; none where there is no space.
fn name_of(line: &[u8]) -> &[u8]
    ensures { result.now ≡ Lines·name_of line.now }
{
    let end = place_of(b' ', line).unwrap_or(0);
    &line[..end]
}

// The place of the first such byte.
fn place_of(byte: u8, s: &[u8]) -> Option<usize>
    ensures { result ≡ position (λ b. b == byte) s.now }
{
    s.iter().position(|b| *b == byte)
}

// Up to 16 words, a space before each, and a newline; none where s is anything else.
fn words_of(s: &[u8]) -> Option<Words>
    ensures { result ≡ Lines·words_of s.now }
{
    words_in(s.strip_suffix(b"\n")?)
}

// Up to 16 words, a space before each; none where s is anything else.
fn words_in(s: &[u8]) -> Option<Words>
    ensures { result ≡ Lines·words_in 16 s.now }
{
    let mut rest = s;
    let mut words = Words::none();
    for _ in 0..16usize {
        if rest.is_empty() {
            break;
        }
        let digits = rest.strip_prefix(b" ")?;
        words = words.with(text::word(digits, 0)?);
        rest = &digits[8..];
    }
    rest.is_empty().then_some(words)
}
