// Replays reports of room files. Each line of standard input puts words into a file, which prints
// nothing, or asks: then the program prints the report, the words of an answer on a line, or `unread`
// where it knows no such line.
#![tactic(auto)]

mod ask;

use replay::{Line, Replay, Words, println_answer};
use std::io;

// The file and the text of its report are zeros at first.
fn main(rt: HostRuntime) -> io::Result<()> {
    let mut reports = Reports {
        file: [0; 65600],
        report: [0; 131072],
    };
    replay::run_lines(&rt, &mut reports)
}

// Reports of the file, written into a text.
#[derive(Drop)]
struct Reports {
    file: [u8; 65600],
    report: [u8; 131072],
}

impl Replay for Reports {
    fn store(&mut self, line: &Line<'_>) -> bool {
        stored_file::store(&mut self.file, line)
    }

    fn answer(&mut self, line: &Line<'_>) -> Option<Words> {
        let w = line.given.padded();
        let (length, space) = (w[0] as usize, w[1] as usize);
        match line.name {
            b"short" => Some(ask::short(&self.file, length, &mut self.report, space)),
            _ => None,
        }
    }

    // Prints a report, or an answer.
    fn println(&mut self, rt: &impl Print, line: &Line<'_>) -> io::Result<()> {
        match line.name {
            b"room" => {
                let length = line.given.padded()[0] as usize;
                ask::room(rt, &self.file, length, &mut self.report)
            }
            _ => println_answer(rt, self.answer(line)),
        }
    }
}
