// Blocks, from C: the reader, what a header asks for, and the writer.
#![tactic(auto)]

ghost use Rattle.std.specs.Prelude.{◌≡◌, length};
ghost use Rattle.block.specs.Answers.{answer_of};
ghost use Rattle.block.specs.Answers as read;
ghost use Rattle.header.specs.Plans.{plan_of};
ghost use Rattle.writer.specs.Answers.{written_of, room_written};
ghost use Rattle.c_blocks.specs.Copies.{copies_in};

use c_numbers::marked;

#[unsafe(no_mangle)]
pub extern "C" fn rahmisve_read(
    block: &[u8],
    room: &mut [u16],
    header: &mut [u8; 28],
    copies: &mut [u8; 3],
    word_count: &mut usize,
) -> u8
    ensures value { result ≡ (answer_of block.now (length room.old)).number }
    ensures header_after { header.new ≡ (answer_of block.now (length room.old)).header }
    ensures copies_after { copies.new ≡ copies_in (answer_of block.now (length room.old)) }
    ensures word_count_after { word_count.new ≡ (answer_of block.now (length room.old)).words }
    ensures room_after { room.new ≡ read.room_after block.now room.old }
{
    match block::read(block, room) {
        Ok(read) => {
            let common = read.common;
            let common_header = common.header;
            *header = common_header;
            *copies = [
                marked(common.first),
                marked(common.second),
                marked(common.third),
            ];
            *word_count = read.words;
            ground::ACCEPTED
        }
        Err(refusal) => {
            *header = [0u8; 28];
            *copies = [0u8; 3];
            *word_count = 0;
            refusal.number()
        }
    }
}

#[unsafe(no_mangle)]
pub extern "C" fn rahmisve_plan(
    header: &[u8],
    block: &mut u8,
    version: &mut u8,
    size: &mut u8,
    records: &mut u8,
    word_count: &mut usize,
    field_bytes: &mut usize,
) -> u8
    ensures { record { number = result; block = block.new; version = version.new; size = size.new; records = records.new; words = word_count.new; bytes = field_bytes.new } ≡ plan_of header.now }
{
    match header::plan_of(header) {
        Ok(plan) => {
            *block = plan.block;
            *version = plan.version;
            *size = plan.size;
            *records = plan.records;
            *word_count = plan.words;
            *field_bytes = plan.bytes;
            ground::ACCEPTED
        }
        Err(refusal) => {
            *block = 0;
            *version = 0;
            *size = 0;
            *records = 0;
            *word_count = 0;
            *field_bytes = 0;
            refusal.number()
        }
    }
}

#[unsafe(no_mangle)]
pub extern "C" fn rahmisve_write(
    header: &[u8],
    words: &[u16],
    room: &mut [u8],
    bytes: &mut usize,
) -> u8
    ensures bytes_after { record { number = result; bytes = bytes.new } ≡ written_of header.now words.now (length room.old) }
    ensures room_after { room.new ≡ room_written header.now words.now room.old }
{
    match writer::write(header, words, room) {
        Ok(written) => {
            *bytes = written;
            ground::ACCEPTED
        }
        Err(refusal) => {
            *bytes = 0;
            refusal.number()
        }
    }
}
