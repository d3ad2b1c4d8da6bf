// Surfels placed on the surface of a scene: seeds in order, each kept where it lands on the surface
// and no surfel kept before it is too close.
//
// The entry answers why a call is refused, as a `Refusal`. No public function has a `requires`.
#![tactic(auto)]

ghost use Rattle.placement.specs.Lent.{Request as LentRequest, request_of};

mod chaining;
mod checks;
mod crowding;
mod entries;
mod layout;
mod placing;
mod storing;

pub use entries::generate;
use std::marker::Model;
use tables::Scene;
use vector::Vec3;

// What surfels are placed from: a scene, so many materials, four floats each, the box from lo to hi,
// and how many surfels at most.
#[derive(Drop)]
pub struct Request<'a> {
    pub scene: Scene<'a>,
    pub mats: usize,
    pub materials: &'a [f32],
    pub lo: Vec3,
    pub hi: Vec3,
    pub target: usize,
}

impl<'a> Model for Request<'a> {
    ghost Value = { LentRequest };

    ghost view = { λ o. request_of o.scene o.mats o.materials.now o.lo o.hi o.target };
}
