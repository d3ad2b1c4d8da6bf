// Transfer rows. It returns 0, or the number of the refusal; refused with 2 to 6 it writes nothing,
// with 8 the rows before the one that did not fit, its start, its number, and scratch.
ghost use Rattle.std.specs.Prelude.{◌≡◌, length};
ghost use Rattle.vector.specs.Flat.{KeptFrom};
ghost use Rattle.vector.specs.Vector.{vec};
ghost use Rattle.tables.specs.Tables.{scene_in};
ghost use Rattle.formfactor.specs.Lent.{diagonal, emitters_in, setting_in};
ghost use Rattle.formfactor.specs.Answers.{scratch_open};
ghost use Rattle.outs.specs.Outs.{build_outs};
ghost use Rattle.interflect.specs.Rows.{interflect_build};

use crate::vectors::vec;
use formfactor::{Emitters, Surfels};
use tables::Scene;

// Builds the rows of n surfels over nc clusters: links becomes how many links they have,
// mean_row_sum the mean of the row sums over the rows with links, evals how many distances were
// evaluated. Where a row does not fit the shorter link slice, of which at most 16,777,216 places are
// used, row becomes its number. link and weight are scratch.
#[unsafe(no_mangle)]
pub extern "C" fn interflect_build(
    prims: usize,
    planes: usize,
    objects: usize,
    kinds: &[u32],
    lengths: &[f32],
    plane_parts: &[u32],
    object_parts: &[u32],
    lox: f32,
    loy: f32,
    loz: f32,
    hix: f32,
    hiy: f32,
    hiz: f32,
    n: usize,
    p: &[f32],
    normals: &[f32],
    nc: usize,
    cluster_p: &[f32],
    cluster_n: &[f32],
    cluster_area: &[f32],
    cluster_radius: &[f32],
    starts: &mut [u32],
    link_cluster: &mut [u32],
    link_weight: &mut [f32],
    link: &mut [u32],
    weight: &mut [f32],
    links: &mut usize,
    mean_row_sum: &mut f32,
    evals: &mut usize,
    row: &mut usize,
) -> u32
    ensures link_weight_after { (result, (build_outs links mean_row_sum evals row).exit, starts.new, link_cluster.new, link_weight.new)
        ≡ interflect_build (vec lox loy loz) (vec hix hiy hiz) (setting_in (scene_in prims planes objects kinds lengths plane_parts object_parts)
        (diagonal (vec lox loy loz) (vec hix hiy hiz)) n p normals (emitters_in nc cluster_p cluster_n cluster_area cluster_radius))
        (build_outs links mean_row_sum evals row).entry starts.old link_cluster.old link_weight.old
        (length link.old) (length weight.old) }
    ensures kept_from { KeptFrom (scratch_open (vec lox loy loz) (vec hix hiy hiz) (setting_in
        (scene_in prims planes objects kinds lengths plane_parts object_parts)
        (diagonal (vec lox loy loz) (vec hix hiy hiz)) n p normals (emitters_in nc cluster_p cluster_n cluster_area cluster_radius))
        (length starts.old) (length link.old) (length weight.old)) link }
    ensures kept_from_2 { KeptFrom (scratch_open (vec lox loy loz) (vec hix hiy hiz) (setting_in
        (scene_in prims planes objects kinds lengths plane_parts object_parts)
        (diagonal (vec lox loy loz) (vec hix hiy hiz)) n p normals (emitters_in nc cluster_p cluster_n cluster_area cluster_radius))
        (length starts.old) (length link.old) (length weight.old)) weight }
{
    let scene = Scene {
        prims,
        planes,
        objects,
        kinds,
        lengths,
        plane_parts,
        object_parts,
    };
    let surfels = Surfels { n, p, normals };
    let emitters = Emitters {
        nc,
        p: cluster_p,
        n: cluster_n,
        area: cluster_area,
        radius: cluster_radius,
    };
    let answer = formfactor::build(
        &scene,
        vec(lox, loy, loz),
        vec(hix, hiy, hiz),
        &surfels,
        &emitters,
        starts,
        link_cluster,
        link_weight,
        link,
        weight,
    );
    outs::tell_built(answer, links, mean_row_sum, evals, row)
}
