// Reports of the file, and what they answer.
use replay::{Words, counted, lent, lent_mut, println_answer, refusal_word};
use std::io;

// Prints the report of the first so many bytes of the file, more than there are meaning all; or the
// number that refuses it.
pub fn room(rt: &impl Print, file: &[u8], length: usize, text: &mut [u8]) -> io::Result<()> {
    match report::room_report(lent(file, length), text) {
        Ok(end) => rt.write_all(lent(text, end)),
        Err(refusal) => println_answer(rt, Some(refusal_word(refusal))),
    }
}

// What a report of the first so many bytes into so much of the text answers: the number that refuses
// it, or 0 and how many bytes it has.
pub fn short(file: &[u8], length: usize, text: &mut [u8], space: usize) -> Words {
    counted(report::room_report(lent(file, length), lent_mut(text, space)))
}
