// A block that was found, as a field of a recording.
ghost use Rattle.std.specs.Prelude.{◌≡◌, ◌+◌, ◌<◌, ◌≤◌, length};
ghost use Rattle.room.specs.Laid.{laid};
ghost use Rattle.copies.specs.Copies.{copy_length, copies_length, copy_at};
ghost use Rattle.made.specs.Made.{length_by};
ghost use Rattle.salvaging.specs.Pieces.{field_by};
ghost use Rattle.recording.specs.Fields.{written};

use crate::copy_at;
use copies::{COPIES_BYTES, COPY_BYTES};
use recording::FRONT;

// A copy's thirty bytes from `at` on.
fn put_copy(rest: &[u8], copy: usize, recording: &mut [u8], at: usize)
    requires copy_bound { (copy < 3) × (copies_length ≤ length rest.now) }
    requires copy_length_in_bounds { at + copy_length ≤ length recording.old }
    ensures { recording.new ≡ laid recording.old at (copy_at copy rest.now) }
{
    room::lay(copy_at(rest, copy), recording, at);
}

// Byte by byte: where the length is not known, a copy by the library is a call of `memmove`, and the archive is to need nothing but `memcpy`.
fn put_behind(bytes: &[u8], recording: &mut [u8], at: usize)
    requires { at + length bytes.now ≤ length recording.old }
    ensures { recording.new ≡ laid recording.old at bytes.now }
{
    for (i, byte) in bytes.iter().enumerate() {
        recording[at + i] = *byte;
    }
}

// The block that a copy makes, three times that copy and what lies behind the three places, from `at` on; where it ends.
pub(crate) fn put_block(
    rest: &[u8],
    copy: usize,
    bytes: usize,
    recording: &mut [u8],
    at: usize,
) -> usize
    requires copy_bound { (copy < 3) × (bytes ≡ length_by copy rest.now) × (bytes ≤ length rest.now) × (bytes < 65536) }
    requires bytes_in_bounds { at + 3 + bytes ≤ length recording.old }
    ensures value { result ≡ at + 3 + bytes }
    ensures recording_after { recording.new ≡ laid recording.old at (written (field_by copy rest.now)) }
{
    let front = recording::front_of(recording::BLOCK, bytes as u16);
    room::lay(&front, recording, at);
    let body = at + FRONT;
    put_copy(rest, copy, recording, body);
    put_copy(rest, copy, recording, body + COPY_BYTES);
    put_copy(rest, copy, recording, body + 2 * COPY_BYTES);
    put_behind(&rest[COPIES_BYTES..bytes], recording, body + COPIES_BYTES);
    body + bytes
}
