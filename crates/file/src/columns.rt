// Where the columns of a file stand.
ghost use Rattle.std.specs.Prelude.{◌≡◌};
ghost use Rattle.file.specs.Blocks.{points, normals, albedos, areas, directs, cluster_areas, firsts, member_counts, members};
ghost use Rattle.file.specs.Blocks.{row_starts, link_clusters, link_weights, probe_points, probe_normals};

use crate::{Column, Counts};

impl Counts {
    // Where the points of the surfels stand.
    pub(crate) fn points(self) -> Column
        ensures { result ≡ points self }
    {
        self.surfel_block().column(0, 3)
    }

    // Their normals.
    pub(crate) fn normals(self) -> Column
        ensures { result ≡ normals self }
    {
        self.surfel_block().column(3, 3)
    }

    // Their albedos.
    pub(crate) fn albedos(self) -> Column
        ensures { result ≡ albedos self }
    {
        self.surfel_block().column(6, 3)
    }

    // Their areas.
    pub(crate) fn areas(self) -> Column
        ensures { result ≡ areas self }
    {
        self.surfel_block().column(9, 1)
    }

    // Their direct light.
    pub(crate) fn directs(self) -> Column
        ensures { result ≡ directs self }
    {
        self.surfel_block().column(10, 3)
    }

    // Where the areas of the clusters stand.
    pub(crate) fn cluster_areas(self) -> Column
        ensures { result ≡ cluster_areas self }
    {
        self.cluster_block().column(0, 1)
    }

    // The first member of each.
    pub(crate) fn firsts(self) -> Column
        ensures { result ≡ firsts self }
    {
        self.cluster_block().column(1, 1)
    }

    // How many members each has.
    pub(crate) fn member_counts(self) -> Column
        ensures { result ≡ member_counts self }
    {
        self.cluster_block().column(2, 1)
    }

    // Where the members stand.
    pub(crate) fn members(self) -> Column
        ensures { result ≡ members self }
    {
        self.member_block().column(0, 1)
    }

    // Where the row starts stand, one more than surfels.
    pub(crate) fn row_starts(self) -> Column
        ensures { result ≡ row_starts self }
    {
        self.start_block().column(0, 1)
    }

    // Where the clusters of the links stand.
    pub(crate) fn link_clusters(self) -> Column
        ensures { result ≡ link_clusters self }
    {
        self.link_block().column(0, 1)
    }

    // Their weights.
    pub(crate) fn link_weights(self) -> Column
        ensures { result ≡ link_weights self }
    {
        self.link_block().column(1, 1)
    }

    // Where the points of the probes stand.
    pub(crate) fn probe_points(self) -> Column
        ensures { result ≡ probe_points self }
    {
        self.probe_block().column(0, 3)
    }

    // Their normals.
    pub(crate) fn probe_normals(self) -> Column
        ensures { result ≡ probe_normals self }
    {
        self.probe_block().column(3, 3)
    }
}
