// The public entry: it answers why the call is refused, or builds the rows.
ghost use Rattle.std.specs.Prelude.{◌≡◌, length};
ghost use Rattle.vector.specs.Flat.{KeptFrom};
ghost use Rattle.formfactor.specs.Lent.{diagonal, setting_with};
ghost use Rattle.formfactor.specs.Answers.{build_answer, scratch_open};

use crate::checks::check;
use crate::setting::Setting;
use crate::{BuildError, Built, Emitters, Surfels};
use tables::Scene;
use vector::Vec3;

// Builds the rows of surfels over clusters, in a scene with the bounds from lo to hi: row i has its
// links from starts[i] up to starts[i + 1]. A row whose links do not fit the shorter of the two link
// slices, of which at most 16,777,216 places are used, is answered with its number, after the rows
// before it. Scratch holds one row at a time.
// Kept: what is written are slices one by one: of a struct of slices that are written, handed on whole,
// the checker knows how long they then are and not what they hold (tried in clusters).
pub fn build(
    scene: &Scene,
    lo: Vec3,
    hi: Vec3,
    surfels: &Surfels,
    emitters: &Emitters,
    starts: &mut [u32],
    link_cluster: &mut [u32],
    link_weight: &mut [f32],
    link: &mut [u32],
    weight: &mut [f32],
) -> Result<Built, BuildError>
    ensures link_weight_after { (result, starts.new, link_cluster.new, link_weight.new)
        ≡ build_answer lo hi (setting_with scene.now (diagonal lo hi) surfels.now emitters.now) starts.old link_cluster.old link_weight.old
        (length link.old) (length weight.old) }
    ensures kept_from { KeptFrom (scratch_open lo hi (setting_with scene.now (diagonal lo hi) surfels.now emitters.now) (length starts.old)
        (length link.old) (length weight.old)) link }
    ensures kept_from_2 { KeptFrom (scratch_open lo hi (setting_with scene.now (diagonal lo hi) surfels.now emitters.now) (length starts.old)
        (length link.old) (length weight.old)) weight }
{
    check(
        scene,
        lo,
        hi,
        surfels,
        emitters,
        starts.len(),
        link.len(),
        weight.len(),
    )?;
    let setting = Setting {
        scene,
        diag: hi.minus(lo).length(),
        surfels,
        emitters,
    };
    setting.build_rows(starts, link_cluster, link_weight, link, weight)
}
