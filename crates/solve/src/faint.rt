// Products and quotients in good time where light is faint: above 0 and below 2^-60. With such a float
// a product or quotient may have a subnormal operand or result, which takes some processors sixty
// times as long.
ghost use Rattle.std.specs.Prelude.{◌≡◌};
ghost use Rattle.vector.specs.Vector.{scaled, times, over};
ghost use Rattle.solve.specs.Held.{RoomHeld};

use transfer::Room;
use vector::Vec3;

// 2^-60: a product of two floats from it on is not subnormal, nor is one of them divided by 1e12.
const AMPLE: f32 = 8.6736174e-19;

// Whether one of these floats is faint.
pub fn any_faint(s: &[f32]) -> bool {
    s.iter().any(|x| (0.0 < *x) & (*x < AMPLE))
}

// Whether a weight, an area or a channel of albedo of a room is faint.
pub fn faint_room(room: &Room) -> bool
    requires { RoomHeld room.now }
{
    any_faint(&room.rows.weight[..room.rows.links])
        | any_faint(&room.area[..room.n])
        | any_faint(&room.albedo[..3 * room.n])
}

// Each component times k. `faint` tells whether one of these floats may be faint: the time depends on
// it, and nothing else.
// Kept: a flag for each product. A trait for the two products was tried in power.rt: it proves, but takes two
// types, two impls, `scaled` and `times` written out over it, and the clauses of `update_power` once more.
pub fn scaled(faint: bool, v: Vec3, k: f32) -> Vec3
    ensures { result ≡ scaled v k }
{
    if faint {
        return subnormal::scaled(v, k);
    }
    v.scaled(k)
}

// Each component times the other vector's.
pub fn times(faint: bool, v: Vec3, o: Vec3) -> Vec3
    ensures { result ≡ times v o }
{
    if faint {
        return subnormal::times(v, o);
    }
    v.times(o)
}

// Each component divided by k.
pub fn over(v: Vec3, k: f32) -> Vec3
    ensures { result ≡ over v k }
{
    if (AMPLE <= v.x) & (AMPLE <= v.y) & (AMPLE <= v.z) {
        return v.over(k);
    }
    subnormal::over(v, k)
}
