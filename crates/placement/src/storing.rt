// Surfels stored in their columns.
ghost use Rattle.std.specs.Prelude.{◌≡◌, set};
ghost use Rattle.vector.specs.Flat.{vec_at, put_at};
ghost use Rattle.seeds.specs.Surfels.{surfel_at};
ghost use Rattle.placement.specs.Lent.{columns_now, columns_over, columns_read};
ghost use Rattle.placement.specs.Kept.{columns_by};
ghost use Rattle.placement.specs.Needs.{Roomy};

use crate::Request;
use seeds::{Spacing, Surfel, surfel_at};
use vector::{at, put, put_float};

// Makes the surfels at the first `count` points of p, and stores them.
pub fn store(
    request: &Request,
    s: Spacing,
    count: usize,
    p: &[f32],
    n: &mut [f32],
    albedo: &mut [f32],
    area: &mut [f32],
    direct: &mut [f32],
    irr: &mut [f32],
    rad: &mut [f32],
)
    requires { Roomy count (columns_now p n albedo area direct irr rad) }
    ensures { columns_over p n albedo area direct irr rad
        ≡ columns_by (λ i. surfel_at request.now.scene request.now.mats request.now.materials s (vec_at p.now i)) count (columns_read p n albedo area direct irr rad) }
{
    for i in 0..count {
        let made = surfel_at(&request.scene, request.mats, request.materials, s, at(p, i));
        put_surfel(made, i, n, albedo, area, direct, irr, rad);
    }
}

// Stores a surfel, but for its point, as number i.
fn put_surfel(
    v: Surfel,
    i: usize,
    n: &mut [f32],
    albedo: &mut [f32],
    area: &mut [f32],
    direct: &mut [f32],
    irr: &mut [f32],
    rad: &mut [f32],
)
    ensures n_after { n.new ≡ put_at n.old i v.n }
    ensures albedo_after { albedo.new ≡ put_at albedo.old i v.albedo }
    ensures area_after { area.new ≡ set area.old i v.area }
    ensures direct_after { direct.new ≡ put_at direct.old i v.direct }
    ensures irr_after { irr.new ≡ put_at irr.old i v.irr }
    ensures rad_after { rad.new ≡ put_at rad.old i v.rad }
{
    put(n, i, v.n);
    put(albedo, i, v.albedo);
    put_float(area, i, v.area);
    put(direct, i, v.direct);
    put(irr, i, v.irr);
    put(rad, i, v.rad);
}
