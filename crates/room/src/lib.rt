// Bytes laid into lent room, from a place on. What is put together from bytes is made of it.
#![tactic(auto)]

ghost use Rattle.std.specs.Prelude.{◌≡◌};
ghost use Rattle.room.specs.Laid.{inside, laid_inside};

// Lays the bytes into the room from `at` on. Where they would not end inside it, the answer is false and the room is as it was.
pub fn lay(bytes: &[u8], room: &mut [u8], at: usize) -> bool
    ensures value { result ≡ inside room.old at bytes.now }
    ensures room_after { room.new ≡ laid_inside room.old at bytes.now }
{
    if room.len() < at {
        return false;
    }
    if room.len() - at < bytes.len() {
        return false;
    }
    room[at..at + bytes.len()].copy_from_slice(bytes);
    true
}
