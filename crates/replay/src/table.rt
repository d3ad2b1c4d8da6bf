// Tables of numbers and of floats, as the replay programs store them: words put into a table, words
// shown of it, and how much of it is lent.
ghost use Rattle.std.specs.Prelude.{◌≡◌, ℕ, Some, None, cond, ltb, length, min, map, take, drop};
ghost use Rattle.std.proofs.lemmas.List.Edits.{sets};
ghost use Rattle.replay.specs.Words.{sets_from};

use crate::Words;
use float::{bits_of, of_bits};

// What stands at a place of a table, and is written as a word.
pub trait Word: Copy {
    ghost bits: { Self → ℕ };

    ghost read: { ℕ → Self };

    // Its word.
    fn word(self) -> u32
        ensures { result ≡ bits self };

    // What the word says.
    fn of_word(word: u32) -> Self
        ensures { result ≡ read word };
}

impl Word for u32 {
    ghost bits = { λ n. n };

    ghost read = { λ w. w };

    fn word(self) -> u32 {
        self
    }

    fn of_word(word: u32) -> u32 {
        word
    }
}

// A float's word is its bits, 7FC00000 for NaN.
impl Word for f32 {
    ghost use Rattle.std.specs.Float.{binary32};
    ghost use Rattle.std.specs.Float.Ieee.{to_bits, of_bits};

    ghost bits = { to_bits binary32 };

    ghost read = { of_bits binary32 };

    fn word(self) -> u32 {
        bits_of(self)
    }

    fn of_word(word: u32) -> f32 {
        of_bits(word)
    }
}

// Puts the words after the first one after the other, from the place on that the first names, as
// far as they are given and the table has places.
pub fn put<W: Word>(table: &mut [W], given: &Words)
    ensures { table.new ≡ sets_from (map W.read) table.old given.now }
{
    if let Some((from, words)) = given.as_slice().split_first() {
        put_at(table, *from as usize, words);
    }
}

// Puts the words one after the other, from place `at` on, as far as the table has places.
pub fn put_at<W: Word>(table: &mut [W], at: usize, words: &[u32])
    ensures { table.new ≡ sets table.old at (map W.read words.now) }
{
    let places = table.len().saturating_sub(at);
    for (k, word) in lent(words, places).iter().enumerate() {
        table[at + k] = W::of_word(*word);
    }
}

// Up to 16 words of a table from place `at` on.
pub fn shown<W: Word>(table: &[W], at: usize) -> Words
    ensures { result ≡ map W.bits (take 16 (drop at table.now)) }
{
    let mut words = Words::none();
    if at < table.len() {
        for x in lent(&table[at..], 16) {
            words = words.with(x.word());
        }
    }
    words
}

// Up to 16 words of a table from place `at` on; none where it has no such place.
pub fn shown_at<W: Word>(table: &[W], at: usize) -> Option<Words>
    ensures { result ≡ cond (ltb at (length table.now)) (Some (map W.bits (take 16 (drop at table.now)))) None }
{
    (at < table.len()).then(|| shown(table, at))
}

// As much of a table as is asked for, at most all of it.
pub fn lent<T>(table: &[T], length: usize) -> &[T]
    ensures { result.now ≡ take length table.now }
{
    &table[..part(length, table.len())]
}

// The same of a table that a call writes.
// Kept: no clause on the table afterwards. Tried with the library's `Lends`: the check proves it of a
// field and of a call's result alone, and the result here is a range.
pub fn lent_mut<T>(table: &mut [T], length: usize) -> &mut [T]
    ensures { result.now ≡ take length table.old }
{
    let end = part(length, table.len());
    &mut table[..end]
}

// So much of a table is lent: as much as asked for, at most all its places.
pub fn part(length: usize, places: usize) -> usize
    ensures { result ≡ min length places }
{
    length.min(places)
}
