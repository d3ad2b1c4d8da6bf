// Why a room file is refused.
ghost use Rattle.std.specs.Prelude.{◌≡◌};
ghost use Rattle.accept.specs.Ranges.{floats_within};
ghost use Rattle.file.specs.Blocks.{counts_in};
ghost use Rattle.file.specs.Columns.{floats_of};
ghost use Rattle.file.specs.Checks.{formed, few_enough, boxed, floats_pass, numbers_pass, check};
ghost use Rattle.file.specs.Needs.{Ends, Inside};

use crate::lying::Lying;
use crate::words::word_at;
use crate::{Column, Counts, ProbeBox, RoomFile, floats};
use accept::limits::{
    MAX_ALBEDO, MAX_AMOUNT, MAX_BOUNCES, MAX_CLUSTER_AREA, MAX_CLUSTERS, MAX_COORDINATE, MAX_LINKS,
    MAX_SURFELS, MAX_WEIGHT, MIN_FILE,
};
use accept::{Refusal, at_most, links_ascend, numbers_below, ranges_contiguous, require, wide};
use surfel::radius_within;

impl RoomFile<'_> {
    // What refuses a file of at most `most` bytes, if anything does. The call's own test of
    // `Length` is handed in.
    #[tactic(auto, unfolding(crate::specs::Checks::check, accept::specs::Refusal::checked))]
    pub fn check(&self, most: usize, lent: bool) -> Result<(), Refusal>
        ensures { result ≡ check self.now most lent }
    {
        require(self.formed(most), Refusal::File)?;
        require(self.counts.few_enough(), Refusal::Count)?;
        require(self.probe_box().in_range(), Refusal::Range)?;
        require(lent, Refusal::Length)?;
        require(self.floats_pass(), Refusal::Float)?;
        require(self.numbers_pass(), Refusal::Numbers)
    }

    // Whether it has from 64 to `most` bytes, form 1, the offsets and the length that its counts
    // give, and zeros in its spare words.
    #[tactic(auto, unfolding(crate::specs::Checks::formed))]
    fn formed(&self, most: usize) -> bool
        ensures { result ≡ formed self.now most }
    {
        let bytes = self.bytes;
        let c = self.counts();
        let end = 4 * c.end_of();
        (MIN_FILE <= bytes.len())
            & (bytes.len() <= most)
            & (word_at(bytes, 0) == 1)
            & (wide(word_at(bytes, 7)) == 4 * c.surfel_block().from)
            & (wide(word_at(bytes, 8)) == 4 * c.cluster_block().from)
            & (wide(word_at(bytes, 9)) == 4 * c.member_block().from)
            & (wide(word_at(bytes, 10)) == 4 * c.start_block().from)
            & (wide(word_at(bytes, 11)) == 4 * c.link_block().from)
            & (wide(word_at(bytes, 12)) == 4 * c.box_block().from)
            & (wide(word_at(bytes, 13)) == end)
            & (bytes.len() == end)
            & (word_at(bytes, 14) == 0)
            & (word_at(bytes, 15) == 0)
    }

    // Whether the floats of a file that ends where its counts say are in their range.
    #[tactic(auto, unfolding(crate::specs::Checks::floats_pass, transfer::specs::Checks::floats_fit, crate::specs::Rooms::room_of_file, crate::specs::Rooms::clusters_of_file, crate::specs::Rooms::rows_of_file, crate::specs::Rooms::probes_of_file))]
    fn floats_pass(&self) -> bool
        requires { Ends self.now (counts_in self.now) }
        ensures { result ≡ floats_pass self.now }
    {
        let c = self.counts;
        let most = MAX_COORDINATE;
        let points = self.column_within(c.points(), -most, most);
        let facing = self.column_within(c.normals(), -most, most);
        let albedo = self.column_within(c.albedos(), 0.0, MAX_ALBEDO);
        let area = self.column_within(c.areas(), 0.0, MAX_AMOUNT);
        let direct = self.column_within(c.directs(), 0.0, MAX_AMOUNT);
        let clusters = self.column_within(c.cluster_areas(), 0.0, MAX_CLUSTER_AREA);
        let weights = self.column_within(c.link_weights(), 0.0, MAX_WEIGHT);
        let probes = self.column_within(c.probe_points(), -most, most);
        let probes_facing = self.column_within(c.probe_normals(), -most, most);
        let room = albedo & area & direct & clusters & weights;
        points & facing & room & probes & probes_facing
    }

    // Whether the numbers of a file that ends where its counts say fit together.
    #[tactic(auto, unfolding(crate::specs::Checks::numbers_pass, transfer::specs::Checks::numbers_fit, crate::specs::Rooms::room_of_file, crate::specs::Rooms::clusters_of_file, crate::specs::Rooms::rows_of_file))]
    fn numbers_pass(&self) -> bool
        requires { Ends self.now (counts_in self.now) }
        ensures { result ≡ numbers_pass self.now }
    {
        let c = self.counts;
        let starts = self.column(c.row_starts());
        let links = self.column(c.link_clusters());
        let rows = links_ascend(starts, wide(c.surfels), links, wide(c.links));
        let linked = numbers_below(links, wide(c.links), wide(c.clusters));
        let firsts = self.column(c.firsts());
        let counts = self.column(c.member_counts());
        let ranges = ranges_contiguous(firsts, counts, wide(c.clusters), wide(c.members));
        let members = self.column(c.members());
        rows & linked & ranges & numbers_below(members, wide(c.members), wide(c.surfels))
    }

    // The column that stands there.
    fn column(&self, place: Column) -> Lying<'_>
        requires { Inside self.now place }
        ensures bytes { result.bytes.now ≡ self.now }
        ensures place { result.place ≡ place }
    {
        Lying {
            bytes: self.bytes,
            place,
        }
    }

    // Whether each float of a column is from lo to hi.
    fn column_within(&self, place: Column, lo: f32, hi: f32) -> bool
        requires { Inside self.now place }
        ensures { result ≡ floats_within (floats_of self.now place) place.count place.width lo hi }
    {
        floats::column_within(self.bytes, place, lo, hi)
    }
}

impl Counts {
    // Whether the counts and the limit of bounces are within theirs.
    #[tactic(auto, unfolding(crate::specs::Checks::few_enough, transfer::specs::Checks::counts_within))]
    fn few_enough(self) -> bool
        ensures { result ≡ few_enough self }
    {
        at_most(wide(self.surfels), MAX_SURFELS)
            & at_most(wide(self.clusters), MAX_CLUSTERS)
            & at_most(wide(self.members), MAX_SURFELS)
            & at_most(wide(self.links), MAX_LINKS)
            & at_most(wide(self.limit), MAX_BOUNCES)
            & at_most(wide(self.probes), MAX_SURFELS)
    }
}

impl ProbeBox {
    // Whether the box, the side of a cell and the radius are in their range.
    #[tactic(auto, unfolding(crate::specs::Checks::boxed))]
    fn in_range(self) -> bool
        ensures { result ≡ boxed self }
    {
        self.space().sized() & radius_within(self.radius)
    }
}
