// Recordings, from C: the next field of one, the line that the listing has for a field, and the listing's text, line by line.
#![tactic(auto)]

ghost use Rattle.std.specs.Prelude.{◌≡◌, not, eqb};
ghost use Rattle.std.proofs.Math.ListN as list;
ghost use Rattle.room.specs.Laid.{laid_inside};
ghost use Rattle.recording.specs.Found.{found_at, answered};
ghost use Rattle.recording.specs.Lines.{line_of, room_listed};
ghost use Rattle.text.specs.Texts.{put_length};
ghost use Rattle.listing.specs.Texts.{first_text, line_text, last_text};
ghost use Rattle.c_numbers.specs.Numbers.{up_to};
ghost use Rattle.c_recording.specs.Told.{code_of, line_from, put_number, number_by};

use c_numbers::{in_byte, is_on};
use ground::Refusal;
use recording::{Found, Line};

// The numbers of what was found, as the header names them.
const END: u8 = 0;

const FIELD: u8 = 1;

const CUT: u8 = 2;

#[unsafe(no_mangle)]
pub extern "C" fn rahmisve_next_field(
    recording: &[u8],
    at: usize,
    tag: &mut u8,
    start: &mut usize,
    length: &mut usize,
) -> u8
    ensures value { result ≡ code_of (found_at recording.now at) }
    ensures tag_after { tag.new ≡ (answered (found_at recording.now at)).tag }
    ensures start_after { start.new ≡ (answered (found_at recording.now at)).start }
    ensures length_after { length.new ≡ (answered (found_at recording.now at)).length }
{
    *tag = 0;
    *start = 0;
    *length = 0;
    match recording::next_field(recording, at) {
        Found::End => END,
        Found::Cut => CUT,
        Found::Whole(its_tag, body, bytes) => {
            *tag = its_tag;
            *start = body;
            *length = bytes;
            FIELD
        }
    }
}

#[unsafe(no_mangle)]
pub extern "C" fn rahmisve_line(
    before: u64,
    tag: u32,
    body: &[u8],
    room: &mut [u16],
    seq: &mut u64,
    block: &mut u8,
    version: &mut u8,
    word_count: &mut usize,
) -> u8
    ensures word_count_after { record { seq = seq.new; answer = result; block = block.new; version = version.new; words = word_count.new } ≡ line_of before (up_to 255 tag) body.now (list.length room.old) }
    ensures room_after { room.new ≡ room_listed (up_to 255 tag) body.now room.old }
{
    let line = recording::line_of(before, in_byte(tag), body, room);
    *seq = line.seq;
    *block = line.block;
    *version = line.version;
    *word_count = line.words;
    line.answer
}

// The number of an answer whose text has so many bytes: 0 bytes are a text that did not fit, since none is empty.
fn number_of(bytes: usize) -> u8
    ensures { result ≡ number_by bytes }
{
    if bytes == 0 {
        return Refusal::SmallRoom.number();
    }
    ground::ACCEPTED
}

#[unsafe(no_mangle)]
pub extern "C" fn rahmisve_first_text(room: &mut [u8], bytes: &mut usize) -> u8
    ensures value { result ≡ put_number room.old first_text }
    ensures bytes_after { bytes.new ≡ put_length room.old first_text }
    ensures room_after { room.new ≡ laid_inside room.old 0 first_text }
{
    let first = listing::put_first(room);
    *bytes = first;
    number_of(first)
}

#[unsafe(no_mangle)]
pub extern "C" fn rahmisve_line_text(
    seq: u64,
    block: u32,
    version: u32,
    word_count: usize,
    answer: u32,
    room: &mut [u8],
    bytes: &mut usize,
) -> u8
    ensures value { result ≡ put_number room.old (line_text (line_from seq block version word_count answer)) }
    ensures bytes_after { bytes.new ≡ put_length room.old (line_text (line_from seq block version word_count answer)) }
    ensures room_after { room.new ≡ laid_inside room.old 0 (line_text (line_from seq block version word_count answer)) }
{
    let line = Line {
        seq,
        answer: in_byte(answer),
        block: in_byte(block),
        version: in_byte(version),
        words: word_count,
    };
    let put = listing::put_line(line, room);
    *bytes = put;
    number_of(put)
}

#[unsafe(no_mangle)]
pub extern "C" fn rahmisve_last_text(
    cut: u32,
    fields: u64,
    room: &mut [u8],
    bytes: &mut usize,
) -> u8
    ensures value { result ≡ put_number room.old (last_text (not (eqb cut 0)) fields) }
    ensures bytes_after { bytes.new ≡ put_length room.old (last_text (not (eqb cut 0)) fields) }
    ensures room_after { room.new ≡ laid_inside room.old 0 (last_text (not (eqb cut 0)) fields) }
{
    let last = listing::put_last(is_on(cut), fields, room);
    *bytes = last;
    number_of(last)
}
