// Replays operations on floats and vectors. Each line of standard input is an operation's name and
// its operands; the program prints the words of each result on a line, or `unread` where it knows no
// such operation with that many operands.
#![tactic(auto)]

mod answer;

use replay::{Line, Replay, Words};
use std::io;

fn main(rt: HostRuntime) -> io::Result<()> {
    replay::run_lines(&rt, &mut Operations)
}

// Operations keep nothing from line to line.
#[derive(Drop)]
struct Operations;

impl Replay for Operations {
    fn store(&mut self, _line: &Line<'_>) -> bool {
        false
    }

    fn answer(&mut self, line: &Line<'_>) -> Option<Words> {
        answer::to(line)
    }
}
