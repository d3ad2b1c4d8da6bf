// The header of a file, and where its blocks begin.
ghost use Rattle.std.specs.Prelude.{◌≡◌, ◌+◌, ◌*◌, ◌<◌, ◌^◌};
ghost use Rattle.file.specs.Blocks.{counts_in, surfels_from, clusters_from, members_from, starts_from, links_from, probes_from, end_of, column_of};
ghost use Rattle.file.specs.Rooms.{box_of_file};

use crate::words::{float_at, vec_at, word_at};
use crate::{Column, Counts, ProbeBox, RoomFile};
use accept::wide;
use grid::Space;

impl<'a> RoomFile<'a> {
    // The file of these bytes.
    pub fn new(bytes: &'a [u8]) -> RoomFile<'a>
        ensures { result ≡ bytes.now }
    {
        RoomFile {
            bytes,
            counts: Counts {
                surfels: word_at(bytes, 1),
                clusters: word_at(bytes, 2),
                members: word_at(bytes, 3),
                links: word_at(bytes, 4),
                probes: word_at(bytes, 5),
                limit: word_at(bytes, 6),
            },
        }
    }

    // The counts that the file says it has, and its limit of bounces.
    pub fn counts(&self) -> Counts
        ensures { result ≡ counts_in self.now }
    {
        self.counts
    }

    // The box of its grid, the side of a cell, and the radius of a reading.
    pub fn probe_box(&self) -> ProbeBox
        ensures { result ≡ box_of_file self.now }
    {
        let k = self.counts().box_block().from;
        ProbeBox {
            lo: vec_at(self.bytes, k),
            hi: vec_at(self.bytes, k + 3),
            cell: float_at(self.bytes, k + 6),
            radius: float_at(self.bytes, k + 7),
        }
    }
}

impl ProbeBox {
    // The box and the side of a cell, as a grid has them.
    pub fn space(self) -> Space
        ensures { result ≡ record { lo = self.lo; hi = self.hi; cell = self.cell } }
    {
        Space {
            lo: self.lo,
            hi: self.hi,
            cell: self.cell,
        }
    }
}

// A block of a file, in words: `count` entries of `step` words each, the first from `from` on.
#[derive(Clone, Copy)]
pub(crate) struct Block {
    pub(crate) from: usize,
    step: usize,
    count: usize,
}

impl Block {
    // Where it ends.
    fn end(self) -> usize
        requires { self.from + self.step * self.count < 2 ^ 64 }
        ensures { result ≡ self.from + self.step * self.count }
    {
        self.from + self.step * self.count
    }

    // Of each entry `width` words, from its word `at` on.
    pub(crate) fn column(self, at: usize, width: usize) -> Column
        requires { self.from + at < 2 ^ 64 }
        ensures { result ≡ column_of (self.from + at) self.step width self.count }
    {
        Column {
            from: self.from + at,
            step: self.step,
            width,
            count: self.count,
        }
    }
}

impl Counts {
    // The surfels, after the header.
    pub(crate) fn surfel_block(self) -> Block
        ensures { result ≡ record { from = surfels_from; step = 13; count = self.surfels } }
    {
        Block {
            from: 16,
            step: 13,
            count: wide(self.surfels),
        }
    }

    // The clusters.
    pub(crate) fn cluster_block(self) -> Block
        ensures { result ≡ record { from = clusters_from self; step = 3; count = self.clusters } }
    {
        Block {
            from: self.surfel_block().end(),
            step: 3,
            count: wide(self.clusters),
        }
    }

    // The members.
    pub(crate) fn member_block(self) -> Block
        ensures { result ≡ record { from = members_from self; step = 1; count = self.members } }
    {
        Block {
            from: self.cluster_block().end(),
            step: 1,
            count: wide(self.members),
        }
    }

    // The row starts, one more than surfels.
    pub(crate) fn start_block(self) -> Block
        ensures { result ≡ record { from = starts_from self; step = 1; count = self.surfels + 1 } }
    {
        Block {
            from: self.member_block().end(),
            step: 1,
            count: wide(self.surfels) + 1,
        }
    }

    // The links.
    pub(crate) fn link_block(self) -> Block
        ensures { result ≡ record { from = links_from self; step = 2; count = self.links } }
    {
        Block {
            from: self.start_block().end(),
            step: 2,
            count: wide(self.links),
        }
    }

    // The box, the side of a cell and the radius: one entry of eight words.
    pub(crate) fn box_block(self) -> Block
        ensures { result ≡ record { from = probes_from self; step = 8; count = 1 } }
    {
        Block {
            from: self.link_block().end(),
            step: 8,
            count: 1,
        }
    }

    // The probes.
    pub(crate) fn probe_block(self) -> Block
        ensures { result ≡ record { from = probes_from self + 8; step = 6; count = self.probes } }
    {
        Block {
            from: self.box_block().end(),
            step: 6,
            count: wide(self.probes),
        }
    }

    // Where the file ends.
    pub(crate) fn end_of(self) -> usize
        ensures { result ≡ end_of self }
    {
        self.probe_block().end()
    }
}
