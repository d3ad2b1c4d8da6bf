// Replays solves and resets of a room. Each line of standard input stores something, which prints
// nothing, or asks: then the program prints the words of the answer on a line, or `unread` where it
// knows no such question with that many operands.
#![tactic(auto)]

mod answer;

use replay::{Line, Replay, Words};
use std::io;
use stored_room::Stored;

fn main(rt: HostRuntime) -> io::Result<()> {
    let stored = Stored::nothing();
    replay::run_lines(&rt, &mut Questions { stored })
}

// Questions about what is stored.
#[derive(Drop)]
struct Questions {
    stored: Stored,
}

impl Replay for Questions {
    fn store(&mut self, line: &Line<'_>) -> bool {
        self.stored.store(line)
    }

    fn answer(&mut self, line: &Line<'_>) -> Option<Words> {
        answer::to(&mut self.stored, line)
    }
}
