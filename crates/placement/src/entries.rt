// The public entry: it answers why the call is refused and then writes nothing, or places the surfels.
ghost use Rattle.std.specs.Prelude.{◌≡◌, length};
ghost use Rattle.vector.specs.Flat.{KeptFrom};
ghost use Rattle.placement.specs.Lent.{columns_in, columns_out};
ghost use Rattle.placement.specs.Answers.{generate_answer, head_open, next_open};

use crate::Request;
use crate::placing::place;
use crate::storing::store;
use accept::Refusal;

// Places surfels on the surface of a scene, as many as are asked for at most, and answers how many they
// are. They have no light yet.
// Kept: the columns and the scratch are slices one by one: of a struct of slices that are written, handed
// on whole, the checker knows how long they then are and not what they hold (tried in clusters).
pub fn generate(
    request: &Request,
    p: &mut [f32],
    n: &mut [f32],
    albedo: &mut [f32],
    area: &mut [f32],
    direct: &mut [f32],
    irr: &mut [f32],
    rad: &mut [f32],
    head: &mut [u32],
    next: &mut [u32],
) -> Result<usize, Refusal>
    ensures rad_value { (result, columns_out p n albedo area direct irr rad)
        ≡ generate_answer request.now (columns_in p n albedo area direct irr rad) (length head.old) (length next.old) }
    ensures kept_from { KeptFrom (head_open request.now (columns_in p n albedo area direct irr rad) (length head.old) (length next.old)) head }
    ensures kept_from_2 { KeptFrom (next_open request.now (columns_in p n albedo area direct irr rad) (length head.old) (length next.old)) next }
{
    request.check(p, n, albedo, area, direct, irr, rad, head.len(), next.len())?;
    let s = request.spacing();
    let count = place(request, s, p, head, next);
    store(request, s, count, p, n, albedo, area, direct, irr, rad);
    Ok(count)
}
