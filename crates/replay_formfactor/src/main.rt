// Replays calls for clusters and for rows. Each line of standard input stores something, which prints
// nothing, shows what the tables hold, or asks: then the program prints the words of the answer on a
// line, or `unread` where it knows no such question with that many operands.
#![tactic(auto)]

mod show;

use asked_clusters::Cut;
use asked_rows::Told;
use replay::{Line, Replay, Words, println_answer, vec};
use std::io;
use stored::Stored as Scene;
use stored_rows::Stored;

fn main(rt: HostRuntime) -> io::Result<()> {
    let scene = Scene::nothing();
    let stored = Stored::nothing();
    replay::run_lines(&rt, &mut Calls { scene, stored })
}

// Calls with the scene, and with what else is stored.
#[derive(Drop)]
struct Calls {
    scene: Scene,
    stored: Stored,
}

impl Replay for Calls {
    fn store(&mut self, line: &Line<'_>) -> bool {
        self.scene.store(line) || self.stored.store(line)
    }

    fn answer(&mut self, line: &Line<'_>) -> Option<Words> {
        Some(match (line.name, line.given.as_slice()) {
            (b"clusters", [n, res, x, y, z, u, v, w]) => {
                let (lo, hi) = (vec(*x, *y, *z), vec(*u, *v, *w));
                let res = *res as usize;
                asked_clusters::clusters(&mut self.stored, *n as usize, Cut { lo, hi, res })
            }
            (b"rows", [n, nc, x, y, z, u, v, w]) => {
                let (lo, hi) = (vec(*x, *y, *z), vec(*u, *v, *w));
                let (n, nc) = (*n as usize, *nc as usize);
                asked_rows::rows(&self.scene, &mut self.stored, Told { n, nc, lo, hi })
            }
            (b"bucket", [x, y, z]) => asked_clusters::bucket(vec(*x, *y, *z)),
            _ => return None,
        })
    }

    // Shows what the tables hold, or prints a call's answer.
    fn println(&mut self, rt: &impl Print, line: &Line<'_>) -> io::Result<()> {
        match line.name {
            b"show_clusters" => show::clusters(rt, &self.stored, line.given.padded()[0] as usize),
            b"show_rows" => show::rows(rt, &self.stored, line.given.padded()[0] as usize),
            _ => println_answer(rt, self.answer(line)),
        }
    }
}
