// The largest target of placement, and one more.
use placement::Request;
use replay::{Words, counted};
use std::io;
use tables::Scene;
use vector::Vec3;

// Prints what targets of 400,000 and 400,001 are answered with where no slice holds a surfel: 4, since
// the target is accepted, and 2.
pub fn largest(rt: &impl Print) -> io::Result<()> {
    println!(rt; "targets 400000 and 400001, in slices that are too short")?;
    println!(rt; "{}", target_of(400_000))?;
    println!(rt; "{}", target_of(400_001))
}

// How many surfels are placed with this target and no place for one, or the number of the refusal.
fn target_of(target: usize) -> Words {
    let one = Vec3 {
        x: 1.0,
        y: 1.0,
        z: 1.0,
    };
    let scene = Scene {
        prims: 0,
        planes: 0,
        objects: 0,
        kinds: &[],
        lengths: &[],
        plane_parts: &[],
        object_parts: &[],
    };
    let request = Request {
        scene,
        mats: 0,
        materials: &[],
        lo: Vec3::zero(),
        hi: one,
        target,
    };
    let answer = placement::generate(
        &request,
        &mut [],
        &mut [],
        &mut [],
        &mut [],
        &mut [],
        &mut [],
        &mut [],
        &mut [],
        &mut [],
    );
    counted(answer)
}
