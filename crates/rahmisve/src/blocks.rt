// The reader, what a header asks for, the writer: c_blocks.
ghost use Rattle.std.specs.Prelude.{◌≡◌, length};
ghost use Rattle.block.specs.Answers.{answer_of};
ghost use Rattle.block.specs.Answers as read;
ghost use Rattle.header.specs.Plans.{plan_of};
ghost use Rattle.writer.specs.Answers.{written_of, room_written};
ghost use Rattle.c_blocks.specs.Copies.{copies_in};

#[unsafe(no_mangle)]
pub extern "C" fn rahmisve_read(
    block: &[u8],
    room: &mut [u16],
    header: &mut [u8; 28],
    copies: &mut [u8; 3],
    word_count: &mut usize,
) -> u8
    ensures value { result ≡ (answer_of block.now (length room.old)).number }
    ensures header_after { header.new ≡ (answer_of block.now (length room.old)).header }
    ensures copies_after { copies.new ≡ copies_in (answer_of block.now (length room.old)) }
    ensures word_count_after { word_count.new ≡ (answer_of block.now (length room.old)).words }
    ensures room_after { room.new ≡ read.room_after block.now room.old }
{
    c_blocks::rahmisve_read(block, room, header, copies, word_count)
}

#[unsafe(no_mangle)]
pub extern "C" fn rahmisve_plan(
    header: &[u8],
    block: &mut u8,
    version: &mut u8,
    size: &mut u8,
    records: &mut u8,
    word_count: &mut usize,
    field_bytes: &mut usize,
) -> u8
    ensures { record { number = result; block = block.new; version = version.new; size = size.new; records = records.new; words = word_count.new; bytes = field_bytes.new } ≡ plan_of header.now }
{
    c_blocks::rahmisve_plan(
        header,
        block,
        version,
        size,
        records,
        word_count,
        field_bytes,
    )
}

#[unsafe(no_mangle)]
pub extern "C" fn rahmisve_write(
    header: &[u8],
    words: &[u16],
    room: &mut [u8],
    bytes: &mut usize,
) -> u8
    ensures bytes_after { record { number = result; bytes = bytes.new } ≡ written_of header.now words.now (length room.old) }
    ensures room_after { room.new ≡ room_written header.now words.now room.old }
{
    c_blocks::rahmisve_write(header, words, room, bytes)
}
