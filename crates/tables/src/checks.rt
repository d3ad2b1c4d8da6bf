// Whether a scene is accepted.
ghost use Rattle.std.specs.Prelude.{◌≡◌};
ghost use Rattle.accept.specs.Every.{every};
ghost use Rattle.tables.specs.Tables.{part_at};
ghost use Rattle.tables.specs.Checks.{counts_within, tables_hold, size_within, sizes_within, shape_within, prim_within, shapes_within};
ghost use Rattle.tables.specs.Checks.{part_fits, parts_fit, check};

use crate::reading::{number_at, part_at};
use crate::{Part, Scene};
use accept::limits::{MAX_ENTRIES, MAX_LENGTH};
use accept::{Refusal, at_most, coordinate, holds, numbers_below, point, require, wide, within};
use sdf::Shape;
use vector::Vec3;

impl Scene<'_> {
    // What refuses a call on this scene; floats says whether the call's own floats are in their
    // range.
    // Kept: a flag, since it is the only test that a call has of its own, and `check(point(p))` says which.
    #[tactic(auto, unfolding(crate::specs::Checks::check, accept::specs::Refusal::checked))]
    pub fn check(&self, floats: bool) -> Result<(), Refusal>
        ensures { result ≡ check self.now floats }
    {
        require(self.counts_within(), Refusal::Count)?;
        require(self.tables_hold(), Refusal::Length)?;
        require(self.shapes_within() & floats, Refusal::Float)?;
        require(self.parts_fit(), Refusal::Scene)
    }

    // Whether the counts are within their limit: the test of `Count`.
    #[tactic(auto, unfolding(crate::specs::Checks::counts_within))]
    pub fn counts_within(&self) -> bool
        ensures { result ≡ counts_within self.now }
    {
        at_most(self.prims, MAX_ENTRIES)
            & at_most(self.planes, MAX_ENTRIES)
            & at_most(self.objects, MAX_ENTRIES)
    }

    // Whether each table holds its entries: the test of `Length`.
    #[tactic(auto, unfolding(crate::specs::Checks::tables_hold))]
    pub fn tables_hold(&self) -> bool
        ensures { result ≡ tables_hold self.now }
    {
        holds(self.kinds.len(), self.prims, 1)
            & holds(self.lengths.len(), self.prims, 8)
            & holds(self.plane_parts.len(), self.planes, 4)
            & holds(self.object_parts.len(), self.objects, 4)
    }

    // Whether the tables hold their entries, and each float that a primitive uses is in its range:
    // the test of `Float`.
    #[tactic(auto, unfolding(crate::specs::Checks::shapes_within))]
    pub fn shapes_within(&self) -> bool
        ensures { result ≡ shapes_within self.now }
    {
        self.tables_hold() && self.prims_within()
    }

    // Whether the tables hold their entries, each kind is one of the seven, and each plane and object
    // has its primitives in the table and a base of its sort: the test of `Scene`.
    #[tactic(auto, unfolding(crate::specs::Checks::parts_fit))]
    pub fn parts_fit(&self) -> bool
        ensures { result ≡ parts_fit self.now }
    {
        self.tables_hold()
            && numbers_below(self.kinds, self.prims, 7)
                & self.all_fit(self.plane_parts, self.planes, true)
                & self.all_fit(self.object_parts, self.objects, false)
    }

    // Whether the floats of each primitive are in their range.
    #[tactic(auto, unfolding(accept::specs::Every::every))]
    fn prims_within(&self) -> bool
        ensures { result ≡ every (prim_within self.now) self.now.prims }
    {
        let mut ok = true;
        for k in 0..self.prims {
            ok &= self.prim_within(k);
        }
        ok
    }

    // Whether the floats of primitive k are in their range. A kind over 6 uses none.
    // Kept: the kind's number is tested, since the shape of a kind over 6 counts as that of 6.
    #[tactic(auto, unfolding(crate::specs::Checks::prim_within))]
    fn prim_within(&self, k: usize) -> bool
        ensures { result ≡ prim_within self.now k }
    {
        number_at(self.kinds, k) > 6 || shape_within(self.shape_at(k))
    }

    // Whether each of n parts fits, as planes or as objects.
    #[tactic(auto, unfolding(accept::specs::Every::every))]
    fn all_fit(&self, parts: &[u32], n: usize, plane: bool) -> bool
        ensures { result ≡ every (λ j. part_fits self.now plane (part_at parts.now j)) n }
    {
        let mut ok = true;
        for j in 0..n {
            ok &= self.part_fits(plane, part_at(parts, j));
        }
        ok
    }

    // Whether a part's primitives are in the table, and its base is a plane exactly where the part is.
    // Kept: the kind's number is tested; a shape would be read with eight floats, to ask its case alone.
    #[tactic(auto, unfolding(crate::specs::Checks::part_fits))]
    fn part_fits(&self, plane: bool, part: Part) -> bool
        ensures { result ≡ part_fits self.now plane part }
    {
        let base = wide(part.base);
        (base < self.prims)
            & (wide(part.first) + wide(part.many) <= self.prims)
            & ((number_at(self.kinds, base) == 2) == plane)
    }
}

// Whether every float of a shape is in its range.
#[tactic(auto, unfolding(crate::specs::Checks::shape_within))]
fn shape_within(shape: Shape) -> bool
    ensures { result ≡ shape_within shape }
{
    match shape {
        Shape::Sphere { c, r } => point(c) & size_within(r),
        Shape::RoundBox { c, b, r } => point(c) & sizes_within(b) & size_within(r),
        Shape::Plane { n, h } => point(n) & coordinate(h),
        Shape::Capsule { a, b, r } => point(a) & point(b) & size_within(r),
        Shape::Torus { c, major, minor } => point(c) & size_within(major) & size_within(minor),
        Shape::Cylinder { a, b, r } => point(a) & point(b) & size_within(r),
        Shape::Cone { a, b, ra, rb } => point(a) & point(b) & size_within(ra) & size_within(rb),
    }
}

// Whether x serves as a radius or a half-size.
fn size_within(x: f32) -> bool
    ensures { result ≡ size_within x }
{
    within(x, 0.0, MAX_LENGTH)
}

// Whether the three floats of b serve as half-sizes.
fn sizes_within(b: Vec3) -> bool
    ensures { result ≡ sizes_within b }
{
    size_within(b.x) & size_within(b.y) & size_within(b.z)
}
