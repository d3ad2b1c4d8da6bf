// Transfer rows: for each surfel, how much of the light of each cluster reaches it.
//
// A row is made in three steps: its raw links, one for each cluster that the surfel faces and sees;
// its target, the part of the hemisphere above it that meets a surface; and the scaling of the links
// to that target. The entry answers why a call is refused, or which row did not fit, as a
// `BuildError`. No public function has a `requires`.
#![tactic(auto)]

ghost use Rattle.std.specs.Prelude.{◌≡◌};
ghost use Rattle.formfactor.specs.declared.BuildError.TheVariants.{Refused};
ghost use Rattle.formfactor.specs.Lent.{Surfels as LentSurfels, Emitters as LentEmitters, surfels_of, emitters_of};

mod building;
mod checks;
mod entries;
mod linking;
mod setting;

use accept::Refusal;
pub use entries::build;
use std::marker::Model;

// The surfels that rows are made of, so many, by their places and normals: three floats each.
// Kept: a count stands beside the slices, since C lends both and a slice may be longer or shorter. Places
// and normals stand in four types, each beside what else it has: one of the two would be a name more.
#[derive(Drop)]
pub struct Surfels<'a> {
    pub n: usize,
    pub p: &'a [f32],
    pub normals: &'a [f32],
}

impl<'a> Model for Surfels<'a> {
    ghost Value = { LentSurfels };

    ghost view = { λ s. surfels_of s.n s.p.now s.normals.now };
}

// The clusters that light them, so many: their places and normals, three floats each, their areas and
// their radii.
// Kept: a count stands beside the slices, since C lends both and a slice may be longer or shorter.
#[derive(Drop)]
pub struct Emitters<'a> {
    pub nc: usize,
    pub p: &'a [f32],
    pub n: &'a [f32],
    pub area: &'a [f32],
    pub radius: &'a [f32],
}

impl<'a> Model for Emitters<'a> {
    ghost Value = { LentEmitters };

    ghost view = { λ e. emitters_of e.nc e.p.now e.n.now e.area.now e.radius.now };
}

// A row that was made: how many links it has, the sum of their weights before they were scaled, itself
// scaled and at most 1, and how many distances were evaluated.
#[derive(Clone, Copy, Default)]
pub struct RowMade {
    pub links: usize,
    pub sum: f32,
    pub evals: usize,
}

// Rows with links: how many, and their sums summed.
#[derive(Clone, Copy, Default)]
pub struct Interior {
    pub rows: usize,
    pub sum: f32,
}

// Rows that were built: how many links they have, what counts of them for the mean, and how many
// distances were evaluated.
#[derive(Clone, Copy, Default)]
pub struct RowsMade {
    pub links: usize,
    pub interior: Interior,
    pub evals: usize,
}

// What was built: how many links, the mean of the row sums over the rows with links, and how many
// distances were evaluated.
#[derive(Clone, Copy)]
pub struct Built {
    pub links: usize,
    pub mean_row_sum: f32,
    pub evals: usize,
}

// Why rows were not all built: the call is refused, or the links of this row do not fit.
#[derive(Clone, Copy, Debug, PartialEq, Eq)]
pub enum BuildError {
    Refused(Refusal),
    Full(usize),
}

impl From<Refusal> for BuildError {
    ghost from_gives = { λ r e. e ≡ Refused r };

    // The error of a refused call.
    fn from(refusal: Refusal) -> BuildError {
        BuildError::Refused(refusal)
    }
}
