// Vectors of the floats that C hands in one by one.
ghost use Rattle.std.specs.Prelude.{◌≡◌};
ghost use Rattle.vector.specs.Vector.{vec};

use vector::Vec3;

// The vector of three floats.
pub fn vec(x: f32, y: f32, z: f32) -> Vec3
    ensures { result ≡ vec x y z }
{
    Vec3 { x, y, z }
}
