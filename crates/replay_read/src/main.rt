// Replays the reading of room files. Each line of standard input puts words into a file, marks columns
// or says how much of them is lent, which prints nothing, or asks: then the program prints the words
// of the answer, or of a column, on a line, or `unread` where it knows no such line.
#![tactic(auto)]

use lent_file::{Columns, Lent};
use replay::{Line, Replay, Words, lent};
use std::io;

// The file is zeros at first, every place of a column holds zero, and all places are lent.
fn main(rt: HostRuntime) -> io::Result<()> {
    let mut readings = Readings {
        file: [0; 4096],
        columns: Columns::marked(0),
        lengths: Lent::from([64; 16]),
    };
    replay::run_lines(&rt, &mut readings)
}

// Readings of the file: what the columns hold, and how many places of each a reading is lent.
#[derive(Drop)]
struct Readings {
    file: [u8; 4096],
    columns: Columns,
    lengths: Lent,
}

impl Replay for Readings {
    // Words put into the file, columns marked, or how much of them is lent.
    fn store(&mut self, line: &Line<'_>) -> bool {
        let w = line.given.padded();
        match line.name {
            b"mark" => self.columns = Columns::marked(w[0]),
            b"lend" => self.lengths = Lent::from(w),
            _ => return stored_file::store(&mut self.file, line),
        }
        true
    }

    // The result words of a reading of the first so many bytes of the file, more than there are meaning
    // all; or up to 16 words of a column from a place on; none where the line asks neither.
    fn answer(&mut self, line: &Line<'_>) -> Option<Words> {
        let w = line.given.padded();
        match line.name {
            b"read" => {
                let file = lent(&self.file, w[0] as usize);
                Some(self.columns.read(file, self.lengths))
            }
            b"show" => self.columns.shown(w[0], w[1] as usize),
            _ => None,
        }
    }
}
