// A room file that is accepted.
ghost use Rattle.std.specs.Prelude.{◌≡◌, ◌<◌, ◌≤◌, Ok};
ghost use Rattle.grid.specs.Cells.{dims_of, cells};
ghost use Rattle.file.specs.Blocks.{counts_in, end_of};
ghost use Rattle.file.specs.Rooms.{box_of_file};
ghost use Rattle.report.specs.Light.{max_starts};
ghost use Rattle.report.specs.Report.{report_check};

use file::{Counts, ProbeBox, RoomFile};

// A room file that a report does not refuse: whoever makes one shows it.
#[derive(Drop)]
pub struct Accepted<'a> {
    pub file: &'a RoomFile<'a>,
    pub ghost accepted: { report_check file.now ≡ Ok tt },
}

impl Accepted<'_> {
    // Its counts: no column has more than 16,384 entries.
    pub fn counts(&self) -> Counts
        ensures value { result ≡ counts_in self.now.file.now }
        ensures fits { end_of result ≤ 16384 }
    {
        self.file.counts()
    }

    // Its box: the starts of the grid are no more than 16,384.
    pub fn probe_box(&self) -> ProbeBox
        ensures value { result ≡ box_of_file self.now.file.now }
        ensures fits { cells (dims_of result.lo result.hi result.cell) < max_starts }
    {
        self.file.probe_box()
    }
}
