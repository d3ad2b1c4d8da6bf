// Standard input replayed line by line.
use crate::{Line, Lines, Word, Words, shown};
use std::io;
use std::io::{BufWriter, Read, Write};

// Of a longer input no more bytes are read.
const MAX_TEXT: usize = 524288;

// What a program replays: it keeps what lines store, and answers those that ask.
// Kept: a trait and no closure, since what calls a closure has a `requires`, and nothing public has one.
pub trait Replay {
    // Stores what the line says, and answers whether it says something.
    fn store(&mut self, line: &Line<'_>) -> bool;

    // The result words of the question that a line is; none where it is no question.
    fn answer(&mut self, line: &Line<'_>) -> Option<Words>;

    // Writes the answer to a line that stores nothing. What it writes is what `run` prints.
    fn print(&mut self, out: &mut impl Write, line: &Line<'_>) -> io::Result<()> {
        print_answer(out, self.answer(line))
    }

    // Prints the answer to a line that stores nothing. What it prints is what `run_lines` prints.
    fn println(&mut self, rt: &impl Print, line: &Line<'_>) -> io::Result<()> {
        println_answer(rt, self.answer(line))
    }
}

// Stores or answers each line of standard input, and prints what `print` writes, gathered on the heap. A
// line whose words can't be read has none.
pub fn run(rt: &(impl Input + Print + Alloc), replayed: &mut impl Replay) -> io::Result<()> {
    let mut text = Vec::new(rt.alloc());
    rt.reader().take(MAX_TEXT as u64).read_to_end(&mut text)?;
    let mut out = BufWriter::new(rt.alloc(), io::writer(rt))?;
    for bytes in Lines(&text) {
        let line = match Line::of(bytes) {
            Some(line) => line,
            None => Line::unread(bytes),
        };
        if !replayed.store(&line) {
            replayed.print(&mut out, &line)?;
        }
    }
    out.flush()
}

// The same with no heap: what `println` prints is printed, as it is made.
// Kept: a text on the stack and a line written at a time, since the heap could fail, and whoever reads
// has each answer as it is made.
pub fn run_lines(rt: &(impl Input + Print), replayed: &mut impl Replay) -> io::Result<()> {
    let mut text = [0u8; MAX_TEXT];
    let n = input::read_full(rt, &mut text)?;
    for bytes in Lines(&text[..n]) {
        let line = match Line::of(bytes) {
            Some(line) => line,
            None => Line::unread(bytes),
        };
        if !replayed.store(&line) {
            replayed.println(rt, &line)?;
        }
    }
    Ok(())
}

// Writes the words of an answer on a line, or `unread` where there is none.
pub fn print_answer(out: &mut impl Write, answer: Option<Words>) -> io::Result<()> {
    match answer {
        Some(words) => writeln!(out, "{words}"),
        None => writeln!(out, "unread"),
    }
}

// Prints them on standard output, a line in one write.
pub fn println_answer(rt: &impl Print, answer: Option<Words>) -> io::Result<()> {
    match answer {
        Some(words) => println!(rt; "{words}"),
        None => println!(rt; "unread"),
    }
}

// Writes what a table holds from place `at` on, 16 words to a line; the last is the one with the last
// place that is lent.
pub fn print_table<W: Word>(
    out: &mut impl Write,
    table: &[W],
    at: usize,
    lent: usize,
) -> io::Result<()> {
    let end = lent.min(table.len());
    for from in (at..end).step_by(16) {
        writeln!(out, "{}", shown(table, from))?;
    }
    Ok(())
}

// Prints it on standard output, each line in one write.
pub fn println_table<W: Word>(
    rt: &impl Print,
    table: &[W],
    at: usize,
    lent: usize,
) -> io::Result<()> {
    let end = lent.min(table.len());
    for from in (at..end).step_by(16) {
        println!(rt; "{}", shown(table, from))?;
    }
    Ok(())
}
