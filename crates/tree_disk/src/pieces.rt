//! Files taken in pieces of bounded size.
ghost use Rattle.std.specs.Prelude.{◌≡◌, ◌<◌, min};

/// How many bytes of a file are read at once.
pub const PIECE: usize = 65_536;

/// How many bytes the next piece has, where so many are left and there is so much room.
pub fn room_for(left: u64, room: usize) -> usize
    ensures { result ≡ min left room }
{
    if left < room as u64 {
        left as usize
    } else {
        room
    }
}

/// The room for pieces of so many bytes: at least 1.
pub fn piece_room(size: u64) -> usize
    ensures { 0 < result }
{
    room_for(size, PIECE).max(1)
}
