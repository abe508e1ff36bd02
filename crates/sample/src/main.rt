// Makes a recording on standard output, through the proved writers, so that a newcomer has something to list and to watch: a whole scan of
// version 2, blocks 11 of every version and size, damaged fields, three scans that a watch with a limit of 5,000 ms closes early, one of
// them with a fill block, a whole scan over a leap second with three of them, block 2 with three records and with four, and two Sounder
// documentation blocks, one of which is refused as such.
#![tactic(auto)]

ghost use Rattle.std.specs.Prelude.{◌+◌, ◌<◌, ◌≤◌, length};

use header::EXTRA_WORDS;
use std::io;
use tag::Tag;

// The infrared pixels of the first scan, and of all others.
const PIXELS: u8 = 100;

const FEW_PIXELS: u8 = 1;

// The bytes of the longest block here, and the words of the one that has most.
const BLOCK_BYTES: usize = 8132;

const MOST_WORDS: usize = 10720;

// Where a header has its word count, words 3 and 4, its data valid word, word 9, and its SPS time, words 17 to 24.
const COUNT: usize = 2;

const VALID: usize = 8;

const TIME: usize = 16;

// The data valid word of data, and of fill.
const DATA: u8 = 1;

const FILL: u8 = 0;

// Where a scan over midnight begins, in milliseconds behind 23:59:00.000.
const SCAN: u32 = 59500;

const SOUNDER_WORDS: usize = 8040;

// Where a Sounder documentation block has its detector status, words 33 to 42, its raw count, words 43 and 44, its block count, words 45
// and 46, its tags, words 59 to 178, and its frame fields, words 181 to 194.
const STATUS: usize = 32;

const RAW_COUNT: usize = 42;

const BLOCK_COUNT: usize = 44;

const TAGS: usize = 58;

const FRAME: usize = 180;

const TAG_COUNT: usize = 15;

// Which tag is that of the star sense, counted from 0.
const STAR_SENSE: usize = 10;

// The two days of 2008. The later one, and so the year, ended with a leap second.
#[derive(Clone, Copy, PartialEq, Eq)]
enum Day {
    Common = 60,
    Leap = 366,
}

impl Day {
    // The milliseconds of its last minute.
    fn last_minute(self) -> u32
        ensures { result < 61001 }
    {
        match self {
            Day::Common => 60000,
            Day::Leap => 61000,
        }
    }
}

// A time: so many milliseconds behind 23:59:00.000 of a day.
#[derive(Clone, Copy)]
struct Moment {
    day: Day,
    ms: u32,
}

impl Moment {
    fn later(self, ms: u32) -> Moment {
        Moment {
            day: self.day,
            ms: self.ms.saturating_add(ms),
        }
    }

    // Where the minute has 61 seconds, the last of them is second 60.
    fn tag(self) -> Tag {
        let end = self.day.last_minute();
        if end <= self.ms {
            return behind_midnight(self.day, self.ms - end);
        }
        Tag {
            year: 2008,
            day: self.day as u16,
            hour: 23,
            minute: 59,
            second: (self.ms / 1000) as u8,
            ms: (self.ms % 1000) as u16,
            flywheel: false,
        }
    }
}

// What a block is made of: numbers of its header, and its SPS time. Its words and what else the count in the header counts fit a u16.
#[derive(Clone, Copy)]
struct Block {
    id: u8,
    size: u8,
    words: u16,
    version: u8,
    valid: u8,
    time: Moment,
    ghost fits: { words < 65534 },
}

// So many milliseconds behind the midnight that ends a day, in the first hour.
fn behind_midnight(day: Day, ms: u32) -> Tag {
    let (year, next) = match day {
        Day::Common => (2008, Day::Common as u16 + 1),
        Day::Leap => (2009, 1),
    };
    Tag {
        year,
        day: next,
        hour: 0,
        minute: (ms / 60000 % 60) as u8,
        second: (ms / 1000 % 60) as u8,
        ms: (ms % 1000) as u16,
        flywheel: false,
    }
}

// The eight bytes of a time. One leap day is lent, and on no other is second 60 a good one.
fn bytes_of(time: Moment) -> [u8; 8] {
    let leap_days = [2008000 + Day::Leap as u32];
    tag::write_tag(time.tag(), &leap_days).unwrap_or([0; 8])
}

// A header: block id, word size, word count, version, whether data is marked valid, and the SPS time.
fn header_of(block: Block) -> [u8; 28] {
    let count = block.words + EXTRA_WORDS;
    let mut header = [0u8; 28];
    header[0] = block.id;
    header[1] = block.size;
    header[COUNT..COUNT + 2].copy_from_slice(&count.to_be_bytes());
    header[7] = block.version;
    header[VALID] = block.valid;
    header[TIME..TIME + 8].copy_from_slice(&bytes_of(block.time));
    header
}

// A field of the recording: the first `end` bytes of the room, where it has them.
fn put_field(rt: &HostRuntime, tag: u8, room: &[u8], end: usize) -> io::Result<()> {
    if room.len() < end {
        return Ok(());
    }
    rt.write_all(&recording::front_of(tag, (end % 65536) as u16))?;
    rt.write_all(&room[..end])
}

// The words of a line, a pattern that every size holds.
fn put_words(words: &mut [u16]) {
    for (i, word) in words.iter_mut().enumerate() {
        *word = (i % 61) as u16;
    }
}

// A block of the first words, as many as it has, into the room; its bytes.
fn make(block: Block, words: &[u16], room: &mut [u8]) -> usize {
    let end = block.words as usize;
    let header = header_of(block);
    if words.len() < end {
        return 0;
    }
    writer::write(&header, &words[..end], room).unwrap_or(0)
}

fn turn_over(room: &mut [u8], at: usize, bit: u8) {
    if at < room.len() {
        room[at] = room[at] ^ bit;
    }
}

// A field of a block with a bit turned over at a byte, and its last `less` bytes left out.
fn put_damaged(
    rt: &HostRuntime,
    block: Block,
    tag: u8,
    at: usize,
    bit: u8,
    less: usize,
) -> io::Result<()> {
    let mut pattern = [0u16; MOST_WORDS];
    let mut room = [0u8; BLOCK_BYTES];
    put_words(&mut pattern);
    let end = make(block, &pattern, &mut room);
    turn_over(&mut room, at, bit);
    if end < less {
        return Ok(());
    }
    put_field(rt, tag, &room, end - less)
}

fn put_block(rt: &HostRuntime, block: Block) -> io::Result<()> {
    put_damaged(rt, block, recording::BLOCK, 0, 0, 0)
}

// A block 1 to 10 of version 2 and of so many infrared pixels.
fn scanned(number: u8, pixels: u8, valid: u8, time: Moment) -> Block {
    let pixels = pixels as u16;
    let words = match number {
        1 => 4 * (16 + pixels),
        2 => 3 * (16 + pixels),
        _ => 16 + 4 * pixels,
    };
    Block {
        id: number,
        size: 10,
        words,
        version: 2,
        valid,
        time,
    }
}

fn put_scanned(
    rt: &HostRuntime,
    number: u8,
    pixels: u8,
    valid: u8,
    time: Moment,
) -> io::Result<()> {
    let block = scanned(number, pixels, valid, time);
    put_block(rt, block)
}

// A block whose count is given: 0 and 11, which have a fixed one, and a block 2 of either row.
fn put_counted(
    rt: &HostRuntime,
    id: u8,
    size: u8,
    words: u16,
    version: u8,
    time: Moment,
) -> io::Result<()>
    requires { words < 65534 }
{
    let block = Block {
        id,
        size,
        words,
        version,
        valid: DATA,
        time,
    };
    put_block(rt, block)
}

fn put_block_0(rt: &HostRuntime, time: Moment) -> io::Result<()> {
    put_counted(rt, 240, 8, 8040, 2, time)
}

// The data valid word of a block in a scan over the end of a day: on the leap day blocks 2, 5 and 10 are fill.
fn valid_in_scan(day: Day, number: u8) -> u8 {
    match (day, number) {
        (Day::Leap, 2 | 5 | 10) => FILL,
        _ => DATA,
    }
}

// Blocks 0 to 10, so many milliseconds apart, over the end of a day: completed.
fn put_scan(rt: &HostRuntime, day: Day, apart: u16, pixels: u8) -> io::Result<()> {
    let first = Moment { day, ms: SCAN };
    put_block_0(rt, first)?;
    for number in 1..=10u8 {
        let time = first.later(apart as u32 * number as u32);
        put_scanned(rt, number, pixels, valid_in_scan(day, number), time)?;
    }
    Ok(())
}

// Blocks 11 of every version and size.
fn put_blocks_11(rt: &HostRuntime, from: Moment) -> io::Result<()> {
    put_counted(rt, 11, 8, 8040, 0, from)?;
    put_counted(rt, 11, 6, 10720, 1, from.later(100))?;
    put_counted(rt, 11, 10, 6432, 2, from.later(200))?;
    put_counted(rt, 11, 8, 8040, 3, from.later(300))
}

// A header copy hit, which the other two make good; the data hit; a byte missing; another tag; fewer bytes than a header has.
fn put_hits(rt: &HostRuntime, from: Moment) -> io::Result<()> {
    let block = scanned(3, PIXELS, DATA, from);
    put_damaged(rt, block, recording::BLOCK, 5, 16, 0)?;
    put_damaged(rt, block, recording::BLOCK, 200, 1, 0)?;
    put_damaged(rt, block, recording::BLOCK, 0, 0, 1)?;
    put_damaged(rt, block, 2, 0, 0, 0)?;
    put_damaged(rt, block, recording::BLOCK, 0, 0, 2700)
}

// Block 1 comes 5,000 ms after block 0, and block 2 a millisecond more after that: late.
fn put_late(rt: &HostRuntime, from: Moment) -> io::Result<()> {
    put_block_0(rt, from)?;
    put_scanned(rt, 1, FEW_PIXELS, DATA, from.later(5000))?;
    put_scanned(rt, 2, FEW_PIXELS, DATA, from.later(10001))
}

// Block 2 has a time one millisecond before that of block 1: clock back.
fn put_clock_back(rt: &HostRuntime, from: Moment) -> io::Result<()> {
    put_block_0(rt, from)?;
    put_scanned(rt, 1, FEW_PIXELS, DATA, from.later(100))?;
    put_scanned(rt, 2, FEW_PIXELS, DATA, from.later(99))
}

// Block 2 is hit and refused, so that block 3 is not the one expected: broken. Block 1 is fill.
fn put_broken(rt: &HostRuntime, from: Moment) -> io::Result<()> {
    let second = scanned(2, FEW_PIXELS, DATA, from.later(200));
    put_block_0(rt, from)?;
    put_scanned(rt, 1, FEW_PIXELS, FILL, from.later(100))?;
    put_damaged(rt, second, recording::BLOCK, 200, 1, 0)?;
    put_scanned(rt, 3, FEW_PIXELS, DATA, from.later(300))
}

// Block 2 with 84 words, which suit both its rows: three records of 12 pixels in version 2, four of 5 in version 3.
fn put_second(rt: &HostRuntime, from: Moment) -> io::Result<()> {
    put_counted(rt, 2, 10, 84, 2, from)?;
    put_counted(rt, 2, 10, 84, 3, from.later(100))
}

// Bytes as words, over those from `at` on.
fn lay_bytes(bytes: &[u8], words: &mut [u16; SOUNDER_WORDS], at: usize)
    requires { at + length bytes.now ≤ 8040 }
{
    let room = &mut words[at..at + bytes.len()];
    for (word, &byte) in room.iter_mut().zip(bytes.iter()) {
        *word = byte as u16;
    }
}

// A number as two words, the high one first.
fn lay_number(n: u16, words: &mut [u16; SOUNDER_WORDS], at: usize)
    requires { at + 2 ≤ 8040 }
{
    lay_bytes(&n.to_be_bytes(), words, at);
}

// The SAD ID: GOES-P, SPS 1, Sounder documentation data, the first block of its series, block count 1.
fn lay_id(words: &mut [u16; SOUNDER_WORDS]) {
    let id = [15, 1, 32, 63, 0, 0, 0, 1, 0];
    lay_bytes(&id, words, 0);
}

// Suspect are channel 4 detector 2, channel 18 detector 3 and channel 19 detector 4.
fn lay_status(words: &mut [u16; SOUNDER_WORDS]) {
    let status = [0, 0x04, 0, 0, 0, 0, 0, 0, 0x02, 0x10];
    lay_bytes(&status, words, STATUS);
}

// Tag k, counted from 0: the times are 100 ms apart, and there was no star sense.
fn tag_bytes(k: usize, first: Moment) -> [u8; 8]
    requires { k < 15 }
{
    if k == STAR_SENSE {
        return [0; 8];
    }
    bytes_of(first.later(100 * k as u32))
}

fn lay_tags(first: Moment, words: &mut [u16; SOUNDER_WORDS]) {
    for k in 0..TAG_COUNT {
        lay_bytes(&tag_bytes(k, first), words, TAGS + 8 * k);
    }
}

// The frame fields, between these pixels.
fn lay_frame(west: u16, east: u16, words: &mut [u16; SOUNDER_WORDS]) {
    lay_number(12, words, FRAME);
    lay_number(100, words, FRAME + 2);
    lay_number(397, words, FRAME + 4);
    lay_number(west, words, FRAME + 6);
    lay_number(east, words, FRAME + 8);
    lay_number(349, words, FRAME + 10);
    lay_number(600, words, FRAME + 12);
}

// The words of a Sounder documentation block: the pattern, and over it what such a block says. Its tags begin at a time.
fn lay_documentation(first: Moment, west: u16, east: u16, words: &mut [u16; SOUNDER_WORDS]) {
    put_words(words);
    lay_id(words);
    lay_status(words);
    lay_number(263, words, RAW_COUNT);
    lay_number(25, words, BLOCK_COUNT);
    lay_tags(first, words);
    lay_frame(west, east, words);
}

// A block 11 of version 3 that has these words.
fn put_block_11(rt: &HostRuntime, time: Moment, words: &[u16; SOUNDER_WORDS]) -> io::Result<()> {
    let block = Block {
        id: 11,
        size: 8,
        words: 8040,
        version: 3,
        valid: DATA,
        time,
    };
    let mut room = [0u8; BLOCK_BYTES];
    let end = make(block, words, &mut room);
    put_field(rt, recording::BLOCK, &room, end)
}

fn put_sounder(
    rt: &HostRuntime,
    time: Moment,
    first: Moment,
    west: u16,
    east: u16,
) -> io::Result<()> {
    let mut words = [0u16; SOUNDER_WORDS];
    lay_documentation(first, west, east, &mut words);
    put_block_11(rt, time, &words)
}

// Twice the same frame, the second time with west and east exchanged, which is refused.
fn put_sounders(rt: &HostRuntime, from: Moment) -> io::Result<()> {
    put_sounder(rt, from, from, 600, 1200)?;
    put_sounder(rt, from.later(100), from, 1200, 600)
}

fn on_common_day(ms: u32) -> Moment {
    Moment {
        day: Day::Common,
        ms,
    }
}

fn put_all(rt: &HostRuntime) -> io::Result<()> {
    put_scan(rt, Day::Common, 100, PIXELS)?;
    put_blocks_11(rt, on_common_day(60600))?;
    put_hits(rt, on_common_day(61000))?;
    put_late(rt, on_common_day(61500))?;
    put_clock_back(rt, on_common_day(72000))?;
    put_broken(rt, on_common_day(72500))?;
    put_scan(rt, Day::Leap, 200, FEW_PIXELS)?;
    put_second(rt, on_common_day(73000))?;
    put_sounders(rt, on_common_day(73200))
}

// Any word, an option or a name, is answered with how it is called.
fn main(rt: HostRuntime) {
    if 1 < program::arg_count(&rt) {
        program::say(&rt, b"usage: sample >RECORDING\n");
        return;
    }
    if let Err(error) = put_all(&rt) {
        program::fail(&rt, b"standard output", error);
    }
}
