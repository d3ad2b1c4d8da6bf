// Surfels placed. It returns 0, or the number of the refusal and then writes nothing.
ghost use Rattle.std.specs.Prelude.{◌≡◌, length};
ghost use Rattle.vector.specs.Flat.{KeptFrom};
ghost use Rattle.vector.specs.Vector.{vec};
ghost use Rattle.tables.specs.Tables.{scene_in};
ghost use Rattle.placement.specs.Lent.{request_in, columns_in, columns_out};
ghost use Rattle.placement.specs.Answers.{head_open, next_open};
ghost use Rattle.interflect.specs.Placing.{interflect_generate};

use crate::vectors::vec;
use placement::Request;
use tables::Scene;

// Places at most `target` surfels on the surface of a scene, within the box from lo to hi: count
// becomes how many they are. They have no light yet. head and next are scratch.
#[unsafe(no_mangle)]
pub extern "C" fn interflect_generate(
    prims: usize,
    planes: usize,
    objects: usize,
    kinds: &[u32],
    lengths: &[f32],
    plane_parts: &[u32],
    object_parts: &[u32],
    mats: usize,
    materials: &[f32],
    lox: f32,
    loy: f32,
    loz: f32,
    hix: f32,
    hiy: f32,
    hiz: f32,
    target: usize,
    p: &mut [f32],
    n: &mut [f32],
    albedo: &mut [f32],
    area: &mut [f32],
    direct: &mut [f32],
    irr: &mut [f32],
    rad: &mut [f32],
    head: &mut [u32],
    next: &mut [u32],
    count: &mut usize,
) -> u32
    ensures rad_after { (result, count.new, columns_out p n albedo area direct irr rad)
        ≡ interflect_generate (request_in (scene_in prims planes objects kinds lengths plane_parts object_parts) mats materials (vec lox loy loz)
        (vec hix hiy hiz) target) count.old (columns_in p n albedo area direct irr rad) (length head.old)
        (length next.old) }
    ensures kept_from { KeptFrom (head_open (request_in (scene_in prims planes objects kinds lengths plane_parts object_parts) mats materials
        (vec lox loy loz) (vec hix hiy hiz) target) (columns_in p n albedo area direct irr rad) (length head.old)
        (length next.old)) head }
    ensures kept_from_2 { KeptFrom (next_open (request_in (scene_in prims planes objects kinds lengths plane_parts object_parts) mats materials
        (vec lox loy loz) (vec hix hiy hiz) target) (columns_in p n albedo area direct irr rad) (length head.old)
        (length next.old)) next }
{
    let scene = Scene {
        prims,
        planes,
        objects,
        kinds,
        lengths,
        plane_parts,
        object_parts,
    };
    let request = Request {
        scene,
        mats,
        materials,
        lo: vec(lox, loy, loz),
        hi: vec(hix, hiy, hiz),
        target,
    };
    let answer = placement::generate(&request, p, n, albedo, area, direct, irr, rad, head, next);
    outs::tell_count(answer, count)
}
