// Replays questions about scenes. Each line of standard input stores a part of the scene, which
// prints nothing, or asks: then the program prints the words of the answer on a line, or `unread`
// where it knows no such question with that many operands.
#![tactic(auto)]

mod answer;

use replay::{Line, Replay, Words};
use std::io;
use stored::Stored;

fn main(rt: HostRuntime) -> io::Result<()> {
    let scene = Stored::nothing();
    replay::run_lines(&rt, &mut Questions { scene })
}

// Questions about the scene that is stored.
#[derive(Drop)]
struct Questions {
    scene: Stored,
}

impl Replay for Questions {
    fn store(&mut self, line: &Line<'_>) -> bool {
        self.scene.store(line)
    }

    fn answer(&mut self, line: &Line<'_>) -> Option<Words> {
        answer::to(&self.scene, line)
    }
}
