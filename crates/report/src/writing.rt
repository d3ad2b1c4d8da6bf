// Lines put at the front of a text, one after the other; how many bytes they are.
ghost use Rattle.std.specs.Prelude.{◌≡◌, ◌*◌, ◌<◌, ◌≤◌, length};
ghost use Rattle.std.proofs.lemmas.List.Edits.{sets};
ghost use Rattle.accept.specs.Limits.{max_bounces};
ghost use Rattle.vector.specs.Flat.{rows};
ghost use Rattle.lines.specs.Lines.{probed_line};
ghost use Rattle.report.specs.Report.{head_lines};
ghost use Rattle.report.specs.Needs.{seen_in as Needs·seen_in};

use file::Counts;
use lines::Line;
use solve::SolveStats;
use vector::Vec3;

// Puts a line.
pub fn put_line(text: &mut [u8], line: Line) -> usize
    ensures text_after { text.new ≡ sets text.old 0 line }
    ensures value { result ≡ length line }
{
    let bytes = line.as_slice();
    text::put(text, 0, bytes);
    bytes.len()
}

// Puts the lines of the counts and of a run, at most 101 bytes.
pub fn put_head(text: &mut [u8], c: Counts, made: SolveStats) -> usize
    requires bounces_bound { made.bounces ≤ max_bounces }
    requires room { 101 ≤ length text.old }
    ensures text_after { text.new ≡ sets text.old 0 (head_lines c made.bounces made.change) }
    ensures value { result ≡ length (head_lines c made.bounces made.change) }
{
    let counts = lines::counts(c.surfels, c.clusters, c.links);
    let run = lines::bounces(made.bounces as u32, made.change, made.settled());
    let end = put_line(text, counts);
    end + put_line(&mut text[end..], run)
}

// Puts the lines of the probes that have these readings, at most 45 bytes each.
pub fn put_probes(text: &mut [u8], seen: &[u32], light: &[f32]) -> usize
    requires few { length seen.now ≤ 9999 }
    requires room { 45 * length seen.now ≤ length text.old }
    ensures text_after { text.new
        ≡ sets text.old 0 (rows (λ i. probed_line i (Needs·seen_in seen.now light.now i)) (length seen.now)) }
    ensures value { result ≡ length (rows (λ i. probed_line i (Needs·seen_in seen.now light.now i)) (length seen.now)) }
{
    let mut end = 0;
    for i in 0..seen.len() {
        let line = lines::probed(i as u32, seen_in(seen, light, i));
        end += put_line(&mut text[end..], line);
    }
    end
}

// The light that is seen at probe i, by what was written of the readings.
fn seen_in(seen: &[u32], light: &[f32], i: usize) -> Option<Vec3>
    requires { i < length seen.now }
    ensures { result ≡ Needs·seen_in seen.now light.now i }
{
    if seen[i] == 1 {
        Some(vector::at(light, i))
    } else {
        None
    }
}
