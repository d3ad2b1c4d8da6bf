// Runs the facts that document 01 has run, not proved, and prints what they give: a line that says what
// is asked, then the words of each answer on a line, floats by their bits. An answer begins with 0, or
// with the number of the refusal; what slices hold then stands on lines of their own.
#![tactic(auto)]

mod grids;
mod readings;
mod solves;
mod targets;

use std::io;

fn main(rt: HostRuntime) -> io::Result<()> {
    solves::limits_of_q(&rt)?;
    grids::points_of_q(&rt)?;
    readings::radius_of_q(&rt)?;
    grids::cells(&rt)?;
    targets::largest(&rt)
}
