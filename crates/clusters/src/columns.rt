// The columns of clusters as they are lent.
ghost use Rattle.std.specs.Prelude.{◌≡◌};
ghost use Rattle.clusters.specs.Checks.{lengths_hold};

use accept::holds;

// Of each cluster the centre, the normal, the area, the radius, the first of its members and how many
// they are; and the members.
#[derive(Drop)]
pub struct Columns<'a> {
    pub p: &'a mut [f32],
    pub n: &'a mut [f32],
    pub area: &'a mut [f32],
    pub radius: &'a mut [f32],
    pub first: &'a mut [u32],
    pub count: &'a mut [u32],
    pub member: &'a mut [u32],
}

// How long the columns and the scratch are.
// Kept: lengths beside the columns, since of slices behind a `&Columns` the checker still knows how long
// they are and no longer what they hold: tried, that a refused call leaves them didn't close.
#[derive(Clone, Copy)]
pub struct Lengths {
    pub p: usize,
    pub n: usize,
    pub area: usize,
    pub radius: usize,
    pub first: usize,
    pub count: usize,
    pub member: usize,
    pub order: usize,
    pub spare: usize,
}

impl Lengths {
    // Whether n clusters and n members fit, and n numbers into each slice of the scratch.
    #[tactic(auto, unfolding(crate::specs::Checks::lengths_hold))]
    pub fn hold(self, n: usize) -> bool
        ensures { result ≡ lengths_hold n self }
    {
        holds(self.p, n, 3)
            & holds(self.n, n, 3)
            & (n <= self.area)
            & (n <= self.radius)
            & (n <= self.first)
            & (n <= self.count)
            & (n <= self.member)
            & (n <= self.order)
            & (n <= self.spare)
    }
}
