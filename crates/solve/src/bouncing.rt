// A room between the bounces of its light.
ghost use Rattle.solve.specs.Held.{RoomHeld};

use transfer::Room;

// A room in which light bounces, and whether a weight, an area or a channel of albedo of it is faint:
// the time depends on that, and nothing else.
#[derive(Clone, Copy)]
pub struct Bouncing<'a> {
    pub room: &'a Room<'a>,
    pub faint: bool,
    pub ghost held: { RoomHeld room.now },
}
