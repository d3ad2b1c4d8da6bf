// The four lines of a report.
ghost use Rattle.std.specs.Prelude.{◌≡◌, ◌≤◌, length};
ghost use Rattle.lines.specs.Lines.{counts_line, bounces_line, worded_line, probe_line, probed_line, refused_line};

use crate::Line;
use vector::Vec3;

// How many surfels, clusters and links a room has.
#[tactic(auto, unfolding(crate::specs::Lines::counts_line))]
pub fn counts(surfels: u32, clusters: u32, links: u32) -> Line
    ensures { result ≡ counts_line surfels clusters links }
{
    Line::empty()
        .with(b"surfels ")
        .with_decimal(surfels)
        .with(b" clusters ")
        .with_decimal(clusters)
        .with(b" links ")
        .with_decimal(links)
        .with(b"\n")
}

// How many bounces a run made, its last change, and whether it is settled.
#[tactic(auto, unfolding(crate::specs::Lines::bounces_line))]
pub fn bounces(bounces: u32, change: f32, settled: bool) -> Line
    ensures { result ≡ bounces_line bounces change settled }
{
    let start = Line::empty().with(b"bounces ").with_decimal(bounces);
    let line = start.with(b" residual ").with_float(change);
    if settled {
        line.with(b" settled").with(b"\n")
    } else {
        line.with(b" open").with(b"\n")
    }
}

// The reading at a probe: its number, whether light is seen there, and the light.
// Kept: a flag beside the light, since it takes any light, seen or not.
pub fn probe(number: u32, seen: bool, light: Vec3) -> Line
    ensures { result ≡ probe_line number seen light }
{
    if seen {
        worded(number, b" seen", light)
    } else {
        worded(number, b" unseen", light)
    }
}

// The same of a probe by the light that is seen there; zeros stand where none is.
pub fn probed(number: u32, seen: Option<Vec3>) -> Line
    ensures { result ≡ probed_line number seen }
{
    match seen {
        Some(light) => probe(number, true, light),
        None => probe(number, false, Vec3::zero()),
    }
}

// A probe's number, a word, and a light.
#[tactic(auto, unfolding(crate::specs::Lines::worded_line))]
fn worded(probe: u32, word: &[u8], light: Vec3) -> Line
    requires { length word.now ≤ 7 }
    ensures { result ≡ worded_line probe word.now light }
{
    Line::empty()
        .with(b"probe ")
        .with_decimal(probe)
        .with(word)
        .with(b" ")
        .with_float(light.x)
        .with(b" ")
        .with_float(light.y)
        .with(b" ")
        .with_float(light.z)
        .with(b"\n")
}

// The number that refuses a room.
#[tactic(auto, unfolding(crate::specs::Lines::refused_line))]
pub fn refused(number: u32) -> Line
    ensures { result ≡ refused_line number }
{
    Line::empty()
        .with(b"refused ")
        .with_decimal(number)
        .with(b"\n")
}
