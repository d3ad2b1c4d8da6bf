// Replays calls for placement. Each line of standard input stores something, which prints nothing,
// shows what the tables hold, or asks: then the program prints the words of the answer on a line, or
// `unread` where it knows no such question with that many operands.
#![tactic(auto)]

mod show;

use asked_placement::Told;
use replay::{Line, Replay, Words, println_answer, vec};
use std::io;
use stored::Stored as Scene;
use stored_placement::Stored;

fn main(rt: HostRuntime) -> io::Result<()> {
    let scene = Scene::nothing();
    let stored = Stored::nothing();
    replay::run_lines(&rt, &mut Calls { scene, stored })
}

// Calls with the scene, and with what else is stored.
#[derive(Drop)]
struct Calls {
    scene: Scene,
    stored: Stored,
}

impl Replay for Calls {
    fn store(&mut self, line: &Line<'_>) -> bool {
        self.scene.store(line) || self.stored.store(line)
    }

    fn answer(&mut self, line: &Line<'_>) -> Option<Words> {
        let (b"generate", [mats, target, x, y, z, u, v, w]) = (line.name, line.given.as_slice())
        else {
            return None;
        };
        let told = Told {
            mats: *mats as usize,
            target: *target as usize,
            lo: vec(*x, *y, *z),
            hi: vec(*u, *v, *w),
        };
        Some(asked_placement::generate(&self.scene, &mut self.stored, told))
    }

    // Shows what the tables hold, or prints a call's answer.
    fn println(&mut self, rt: &impl Print, line: &Line<'_>) -> io::Result<()> {
        match line.name {
            b"show" => show::tables(rt, &self.stored, line),
            _ => println_answer(rt, self.answer(line)),
        }
    }
}
