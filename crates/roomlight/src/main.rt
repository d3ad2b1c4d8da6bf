// Prints the report of the room file that stands on standard input.
#![tactic(auto)]

use std::io;

// One byte more is read than a room may have, so that a longer file is seen to be too long.
fn main(rt: HostRuntime) -> io::Result<()> {
    let mut file = [0u8; 65537];
    let n = input::read_full(&rt, &mut file)?;
    print_report(&rt, &file[..n])
}

// Prints the report of these bytes; of a room that is refused it says the number.
fn print_report(rt: &impl Print, bytes: &[u8]) -> io::Result<()> {
    let mut text = [0u8; report::MAX_REPORT];
    let answer = report::room_report(bytes, &mut text);
    if let Ok(end) = answer {
        print_start(rt, &text, end)?;
    }
    Ok(())
}

// Prints the text up to a byte, nothing where it has no such byte.
fn print_start(rt: &impl Print, text: &[u8], end: usize) -> io::Result<()> {
    if end <= text.len() {
        rt.write_all(&text[..end])?;
    }
    Ok(())
}
