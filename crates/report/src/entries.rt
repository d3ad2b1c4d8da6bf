// The report on a room file.
ghost use Rattle.std.specs.Prelude.{◌≡◌, ◌≤◌, ◌++◌, length, drop};
ghost use Rattle.std.proofs.lemmas.List.Edits.{sets};
ghost use Rattle.report.specs.Light.{grid_fits};
ghost use Rattle.report.specs.Report.{lines_of, report, max_report, report_answer};

use crate::accepted::Accepted;
use crate::writing::{put_head, put_line, put_probes};
use accept::limits::MAX_PROGRAM_FILE;
use accept::{Refusal, require, wide};
use file::{ProbeBox, RoomFile};

// Bytes that a report needs at most.
pub const MAX_REPORT: usize = 131_072;

// Places that a report has for the starts of a grid.
const MAX_STARTS: usize = 16_384;

// Writes what `roomlight` prints of the file to the front of text, and answers how many bytes it is;
// or refuses with `Length`, and then writes nothing, where text is shorter than MAX_REPORT. The number
// that refuses a file is in the text. The call works in local arrays, on some MB of stack.
#[tactic(auto, unfolding(crate::specs::Report::report_answer, accept::specs::Refusal::checked))]
pub fn room_report(bytes: &[u8], text: &mut [u8]) -> Result<usize, Refusal>
    ensures { (result, text.new) ≡ report_answer bytes.now text.old }
{
    require(MAX_REPORT <= text.len(), Refusal::Length)?;
    Ok(write_report(bytes, text))
}

// Writes the lines of a file, or that it is refused; how many bytes that is.
fn write_report(bytes: &[u8], text: &mut [u8]) -> usize
    requires { max_report ≤ length text.old }
    ensures text_after { text.new ≡ report bytes.now ++ drop (length (report bytes.now)) text.old }
    ensures value { result ≡ length (report bytes.now) }
{
    let file = RoomFile::new(bytes);
    let fits = grid_fits(file.probe_box());
    match file.check(MAX_PROGRAM_FILE, fits) {
        Ok(()) => write_lines(&Accepted { file: &file }, text),
        Err(refusal) => put_line(text, lines::refused(u32::from(refusal))),
    }
}

// Writes the lines of a file that is accepted; how many bytes they are.
fn write_lines(file: &Accepted, text: &mut [u8]) -> usize
    requires { max_report ≤ length text.old }
    ensures text_after { text.new ≡ sets text.old 0 (lines_of file.now.file.now) }
    ensures value { result ≡ length (lines_of file.now.file.now) }
{
    let c = file.counts();
    let count = wide(c.probes);
    let irr = &mut [0.0; 16384][..3 * wide(c.surfels)];
    let seen = &mut [0u32; 16384][..count];
    let light = &mut [0.0; 16384][..3 * count];
    let made = file.solve(irr);
    file.read(irr, seen, light);
    let end = put_head(text, c, made);
    end + put_probes(&mut text[end..], seen, light)
}

// Whether there are places for the starts of a grid over this box.
fn grid_fits(x: ProbeBox) -> bool
    ensures { result ≡ grid_fits x }
{
    x.space().cells() < MAX_STARTS
}
