// Words of `size` bits out of a field of bytes. The meaning is in the crate `bits`, specs/Fields.antt. No size and no length is trusted.
#![tactic(auto)]

ghost use Rattle.std.specs.Prelude.{◌≡◌, ◌++◌, ◌*◌, ◌≤◌, length, drop};
ghost use Rattle.ground.specs.Refusals.{number_in};
ghost use Rattle.bits.specs.Fields.{take_answer, room_taken, words_of};

use bits::fitting::{self, EIGHT, SIX, TEN};
use each::Source;
use ground::Refusal;

mod bytes;
mod each;
mod groups;

// Words that fit the field and the room: those of the format's sizes the quick way, of all others one by one.
fn take_fitting(source: Source<'_>, room: &mut [u16])
    requires count_in_bounds { source.count ≤ length room.old }
    ensures { room.new ≡ words_of source.entry.size source.entry.count source.entry.field.now ++ drop source.entry.count room.old }
{
    match source.size {
        SIX => groups::take_groups::<SIX>(source.field, source.count, room),
        TEN => groups::take_groups::<TEN>(source.field, source.count, room),
        EIGHT => bytes::take_bytes(source.field, source.count, room),
        _ => each::take_each(source, room),
    }
}

// Takes the first `count` words out of the field, to the front of the room. A refusal leaves the room as it was.
pub fn take_words(field: &[u8], size: u8, count: usize, room: &mut [u16]) -> Result<(), Refusal>
    ensures value { number_in result ≡ take_answer size count field.now (length room.old) }
    ensures room_after { room.new ≡ room_taken size count field.now room.old }
{
    if fitting::is_bad_size(size) {
        return Err(Refusal::WrongSize);
    }
    if !fitting::they_fit(count, size, field.len()) {
        return Err(Refusal::WrongLength);
    }
    if room.len() < count {
        return Err(Refusal::SmallRoom);
    }
    take_fitting(Source { field, size, count }, room);
    Ok(())
}
