// What the replay programs share: standard input read line by line, a line's name and words, tables that
// store words, and answers printed.
//
// A line is a name, then words of eight hexadecimal digits, a single space before each, and a
// newline. No public function has a `requires`.
#![tactic(auto)]

mod line;
mod replaying;
mod table;
#[cfg(test)]
mod tests;
mod words;

pub use line::{Line, Lines};
pub use replaying::{
    Replay, print_answer, print_table, println_answer, println_table, run, run_lines,
};
pub use table::{Word, lent, lent_mut, part, put, put_at, shown, shown_at};
pub use words::{Words, counted, full, refusal_word, refused, short, told, vec};
