// A stored scene and what is stored beside it lent to a call for placement, of each table as much as
// is lent. What the call writes is stored.
use crate::Told;
use placement::Request;
use replay::{Words, counted, lent, lent_mut};
use stored_placement::Stored;
use tables::Scene;

// The surfels: how many were placed.
pub fn generate(scene: &stored::Stored, s: &mut Stored, told: Told) -> Words {
    let lengths = s.lent;
    let all = scene.scene();
    let scene = Scene {
        kinds: lent(all.kinds, lengths.kinds),
        lengths: lent(all.lengths, lengths.lengths),
        plane_parts: lent(all.plane_parts, lengths.plane_parts),
        object_parts: lent(all.object_parts, lengths.object_parts),
        ..all
    };
    let request = Request {
        scene,
        mats: told.mats,
        materials: lent(&s.materials, lengths.materials),
        lo: told.lo,
        hi: told.hi,
        target: told.target,
    };
    counted(placement::generate(
        &request,
        lent_mut(&mut s.columns.p, lengths.p),
        lent_mut(&mut s.columns.n, lengths.n),
        lent_mut(&mut s.columns.albedo, lengths.albedo),
        lent_mut(&mut s.columns.area, lengths.area),
        lent_mut(&mut s.light.direct, lengths.direct),
        lent_mut(&mut s.light.irr, lengths.irr),
        lent_mut(&mut s.light.rad, lengths.rad),
        lent_mut(&mut s.scratch.head, lengths.head),
        lent_mut(&mut s.scratch.next, lengths.next),
    ))
}
