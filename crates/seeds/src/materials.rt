// The surfel at a point of the surface.
ghost use Rattle.std.specs.Prelude.{◌≡◌};
ghost use Rattle.seeds.specs.Surfels.{plain, material_at, diffuse_albedo, surfel_at};

use crate::{Material, Spacing, Surfel};
use accept::wide;
use field::{dist_mat, normal};
use tables::Scene;
use vector::{Vec3, float_at};

// The surfel at p, a point of the surface, with no light yet.
// Kept: a count stands beside the materials, since C lends both and a slice may be longer or shorter.
#[tactic(auto, unfolding(crate::specs::Surfels::surfel_at, crate::specs::Surfels::area_of))]
pub fn surfel_at(scene: &Scene, mats: usize, materials: &[f32], s: Spacing, p: Vec3) -> Surfel
    ensures { result ≡ surfel_at scene.now mats materials.now s p }
{
    let hit = dist_mat(scene, p);
    let n = normal(scene, p);
    let m = material_at(mats, materials, hit.mat);
    let albedo = diffuse_albedo(m);
    let none = Vec3::zero();
    Surfel {
        p,
        n,
        albedo,
        area: s.d_min * s.d_min / 0.65,
        direct: none,
        irr: none,
        rad: none,
    }
}

// Material number k of so many; outside the table a grey that is no metal.
#[tactic(auto, unfolding(crate::specs::Surfels::material_at))]
fn material_at(mats: usize, materials: &[f32], k: u32) -> Material
    ensures { result ≡ material_at mats materials.now k }
{
    let j = wide(k);
    if j < mats {
        let albedo = Vec3 {
            x: float_at(materials, 4 * j),
            y: float_at(materials, 4 * j + 1),
            z: float_at(materials, 4 * j + 2),
        };
        Material {
            albedo,
            metallic: float_at(materials, 4 * j + 3),
        }
    } else {
        plain()
    }
}

// What is not in the table.
fn plain() -> Material
    ensures { result ≡ plain }
{
    let grey = Vec3 {
        x: 0.8,
        y: 0.8,
        z: 0.8,
    };
    Material {
        albedo: grey,
        metallic: 0.0,
    }
}

// The part of light that a material returns in every direction.
#[tactic(auto, unfolding(crate::specs::Surfels::diffuse_albedo))]
fn diffuse_albedo(m: Material) -> Vec3
    ensures { result ≡ diffuse_albedo m }
{
    m.albedo.scaled(1.0 - m.metallic)
}
