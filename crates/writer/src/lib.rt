// The writer: 28 header bytes and words into lent room, as three equal header copies, the field with zero fill, and its check word.
#![tactic(auto)]

ghost use Rattle.std.specs.Prelude.{◌≡◌, length};
ghost use Rattle.writer.specs.Answers.{told, written_of, room_written};

use check_word::CHECK_BYTES;
use copies::{COPIES_BYTES, HEADER_BYTES};
use ground::Refusal;

mod parts;

// Writes a block to the front of the room, which may be longer, and gives its count of bytes. A refusal leaves the room as it was.
pub fn write(header: &[u8], words: &[u16], room: &mut [u8]) -> Result<usize, Refusal>
    ensures value { told result ≡ written_of header.now words.now (length room.old) }
    ensures room_after { room.new ≡ room_written header.now words.now room.old }
{
    let Ok(header) = <&[u8; HEADER_BYTES]>::try_from(header) else {
        return Err(Refusal::NoHeader);
    };
    let plan = header::plan_of(header)?;
    if words.len() != plan.words {
        return Err(Refusal::WrongLength);
    }
    let bytes = COPIES_BYTES + plan.bytes + CHECK_BYTES;
    if room.len() < bytes {
        return Err(Refusal::SmallRoom);
    }
    parts::put_block(header, plan.size, plan.bytes, words, room)?;
    Ok(bytes)
}
