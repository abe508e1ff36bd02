// A recording's next field, a field's line, the listing's text: c_recording.
ghost use Rattle.std.specs.Prelude.{◌≡◌, not, eqb};
ghost use Rattle.std.proofs.Math.ListN as list;
ghost use Rattle.room.specs.Laid.{laid_inside};
ghost use Rattle.recording.specs.Found.{found_at, answered};
ghost use Rattle.recording.specs.Lines.{line_of, room_listed};
ghost use Rattle.text.specs.Texts.{put_length};
ghost use Rattle.listing.specs.Texts.{first_text, line_text, last_text};
ghost use Rattle.c_numbers.specs.Numbers.{up_to};
ghost use Rattle.c_recording.specs.Told.{code_of, line_from, put_number};

#[unsafe(no_mangle)]
pub extern "C" fn rahmisve_next_field(
    recording: &[u8],
    at: usize,
    tag: &mut u8,
    start: &mut usize,
    length: &mut usize,
) -> u8
    ensures value { result ≡ code_of (found_at recording.now at) }
    ensures tag_after { tag.new ≡ (answered (found_at recording.now at)).tag }
    ensures start_after { start.new ≡ (answered (found_at recording.now at)).start }
    ensures length_after { length.new ≡ (answered (found_at recording.now at)).length }
{
    c_recording::rahmisve_next_field(recording, at, tag, start, length)
}

#[unsafe(no_mangle)]
pub extern "C" fn rahmisve_line(
    before: u64,
    tag: u32,
    body: &[u8],
    room: &mut [u16],
    seq: &mut u64,
    block: &mut u8,
    version: &mut u8,
    word_count: &mut usize,
) -> u8
    ensures word_count_after { record { seq = seq.new; answer = result; block = block.new; version = version.new; words = word_count.new } ≡ line_of before (up_to 255 tag) body.now (list.length room.old) }
    ensures room_after { room.new ≡ room_listed (up_to 255 tag) body.now room.old }
{
    c_recording::rahmisve_line(before, tag, body, room, seq, block, version, word_count)
}

#[unsafe(no_mangle)]
pub extern "C" fn rahmisve_first_text(room: &mut [u8], bytes: &mut usize) -> u8
    ensures value { result ≡ put_number room.old first_text }
    ensures bytes_after { bytes.new ≡ put_length room.old first_text }
    ensures room_after { room.new ≡ laid_inside room.old 0 first_text }
{
    c_recording::rahmisve_first_text(room, bytes)
}

#[unsafe(no_mangle)]
pub extern "C" fn rahmisve_line_text(
    seq: u64,
    block: u32,
    version: u32,
    word_count: usize,
    answer: u32,
    room: &mut [u8],
    bytes: &mut usize,
) -> u8
    ensures value { result ≡ put_number room.old (line_text (line_from seq block version word_count answer)) }
    ensures bytes_after { bytes.new ≡ put_length room.old (line_text (line_from seq block version word_count answer)) }
    ensures room_after { room.new ≡ laid_inside room.old 0 (line_text (line_from seq block version word_count answer)) }
{
    c_recording::rahmisve_line_text(seq, block, version, word_count, answer, room, bytes)
}

#[unsafe(no_mangle)]
pub extern "C" fn rahmisve_last_text(
    cut: u32,
    fields: u64,
    room: &mut [u8],
    bytes: &mut usize,
) -> u8
    ensures value { result ≡ put_number room.old (last_text (not (eqb cut 0)) fields) }
    ensures bytes_after { bytes.new ≡ put_length room.old (last_text (not (eqb cut 0)) fields) }
    ensures room_after { room.new ≡ laid_inside room.old 0 (last_text (not (eqb cut 0)) fields) }
{
    c_recording::rahmisve_last_text(cut, fields, room, bytes)
}
