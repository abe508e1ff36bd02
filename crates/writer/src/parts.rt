// The parts of a block, each laid where it belongs.
ghost use Rattle.std.specs.Prelude.{◌≡◌, ◌++◌, ◌+◌, ◌-◌, ◌≤◌, length, take, drop};
ghost use Rattle.ground.specs.Choice.{pick};
ghost use Rattle.ground.specs.Refusals.{number_in};
ghost use Rattle.bits.specs.Fields.{put_answer, field_put, all_fit};
ghost use Rattle.check_rule.specs.Check.{check_length, check_word, bytes_of};
ghost use Rattle.room.specs.Laid.{laid};
ghost use Rattle.row.specs.Promises.{Held};
ghost use Rattle.copies.specs.Copies.{copies_length};
ghost use Rattle.block.specs.Layout.{block_length, information_field};
ghost use Rattle.writer.specs.Blocks.{sealed, copies_of, block_of};

use copies::{COPIES_BYTES, COPY_BYTES, HEADER_BYTES};
use ground::Refusal;

// The two bytes of a check word, high byte first.
fn check_bytes(message: &[u8]) -> [u8; 2]
    ensures { result ≡ bytes_of (check_word message.now) }
{
    check_word::check_word(message).to_be_bytes()
}

// A header copy: the 28 bytes and their check word.
fn copy_of(header: &[u8; HEADER_BYTES]) -> [u8; COPY_BYTES]
    ensures { result ≡ sealed header.now }
{
    let mut copy = [0u8; COPY_BYTES];
    room::lay(header, &mut copy, 0);
    let check = check_bytes(header);
    room::lay(&check, &mut copy, HEADER_BYTES);
    copy
}

fn put_copies(header: &[u8; HEADER_BYTES], room: &mut [u8])
    requires { copies_length ≤ length room.old }
    ensures { room.new ≡ laid room.old 0 (copies_of header.now) }
{
    let copy = copy_of(header);
    room::lay(&copy, room, 0);
    room::lay(&copy, room, COPY_BYTES);
    room::lay(&copy, room, 2 * COPY_BYTES);
}

// The words into the field that ends at byte `end`. A refusal leaves the room as it was.
fn put_field(words: &[u16], size: u8, room: &mut [u8], end: usize) -> Result<(), Refusal>
    requires { (copies_length ≤ end) × (end ≤ length room.old) }
    ensures value { number_in result ≡ put_answer size words.now (end - copies_length) }
    ensures room_after { room.new ≡ take copies_length room.old ++ (field_put size words.now (information_field (end - copies_length) room.old) ++ drop end room.old) }
{
    putting::put_words(words, size, &mut room[COPIES_BYTES..end])
}

// The check word of the field that ends at byte `end`, behind it.
fn put_check(room: &mut [u8], end: usize)
    requires { (copies_length ≤ end) × (end + check_length ≤ length room.old) }
    ensures { room.new ≡ laid room.old end (bytes_of (check_word (information_field (end - copies_length) room.old))) }
{
    let check = check_bytes(&room[COPIES_BYTES..end]);
    room::lay(&check, room, end);
}

// The block, from header, words and the length of its field, to the front of the room; or, where a word is too large, its refusal, and
// the room as it was. The field comes first, because only it can refuse.
pub(crate) fn put_block(
    header: &[u8; HEADER_BYTES],
    size: u8,
    bytes: usize,
    words: &[u16],
    room: &mut [u8],
) -> Result<(), Refusal>
    requires held { Held size (length words.now) bytes }
    requires bytes_in_bounds { block_length bytes ≤ length room.old }
    ensures value { number_in result ≡ pick (all_fit size words.now) 0 14 }
    ensures room_after { room.new ≡ pick (all_fit size words.now) (block_of header.now size bytes words.now ++ drop (block_length bytes) room.old) room.old }
{
    let end = COPIES_BYTES + bytes;
    put_field(words, size, room, end)?;
    put_copies(header, room);
    put_check(room, end);
    Ok(())
}
