// A recording: tagged fields, one after the other (specs/Fields.antt); what stands in it from a byte on, and the line that the listing
// has for a field, as numbers.
#![tactic(auto)]

ghost use Rattle.std.specs.Prelude.{ℕ, ◌≡◌, length};
ghost use Rattle.recording.specs.Fields.{front_of};
ghost use Rattle.recording.specs.Found.{length_at, found_at};
ghost use Rattle.recording.specs.Lines.{seq_after, told_line, line_by, line_of, room_listed};

use ground::Refusal;

// A tag and a length of two bytes stand in front of a body.
pub const FRONT: usize = 3;

// What stands in a recording from a byte on.
#[derive(Clone, Copy, Debug, PartialEq, Eq)]
pub enum Found {
    // A whole field: its tag, where its body starts, and how long that is.
    Whole(u8, usize, usize),
    // The recording stops inside a field.
    Cut,
    // Nothing more.
    End,
}

// The front of a field: its tag and the length of its body, high byte first.
pub fn front_of(tag: u8, length: u16) -> [u8; FRONT]
    ensures { result ≡ front_of tag length }
{
    let [high, low] = length.to_be_bytes();
    [tag, high, low]
}

// The length of the body behind such a front.
pub fn body_length(front: [u8; FRONT]) -> u16
    ensures { result ≡ length_at front 0 }
{
    let [_, high, low] = front;
    u16::from_be_bytes([high, low])
}

// What stands at byte `at`.
pub fn next_field(bytes: &[u8], at: usize) -> Found
    ensures { result ≡ found_at bytes.now at }
{
    if bytes.len() <= at {
        return Found::End;
    }
    let left = bytes.len() - at;
    if left < FRONT {
        return Found::Cut;
    }
    let length = body_length([bytes[at], bytes[at + 1], bytes[at + 2]]) as usize;
    if left - FRONT < length {
        return Found::Cut;
    }
    Found::Whole(bytes[at], at + FRONT, length)
}

// The tag of a field that holds a block.
pub const BLOCK: u8 = 1;

// The number of a field, from 1, and what it is answered; of a refusal the other numbers are zero, and the listing shows dashes for them.
#[derive(Clone, Copy, Debug, PartialEq, Eq)]
pub struct Line {
    pub seq: u64,
    pub answer: u8,
    pub block: u8,
    pub version: u8,
    pub words: usize,
}

// The number of the field behind so many. No recording has as many as a count can say.
fn seq_after(before: u64) -> u64
    ensures { result ≡ seq_after before }
{
    before.saturating_add(1)
}

// What the line of a block that is read has beside its number.
#[derive(Clone, Copy)]
struct Listed {
    block: u8,
    version: u8,
    words: usize,
}

// What is listed of a field that is read like any block where its tag says that it holds one.
fn block_line(tag: u8, body: &[u8], room: &mut [u16]) -> Result<Listed, Refusal>
    ensures value { (seq : ℕ) → told_line seq result ≡ line_by seq tag body.now (length room.old) }
    ensures room_after { room.new ≡ room_listed tag body.now room.old }
{
    if tag != BLOCK {
        return Err(Refusal::OtherField);
    }
    let contents = block::read(body, room)?;
    let plan = header::plan_of(&contents.common.header)?;
    Ok(Listed {
        block: plan.block,
        version: plan.version,
        words: contents.words,
    })
}

// The line of the field behind `before` complete ones.
pub fn line_of(before: u64, tag: u8, body: &[u8], room: &mut [u16]) -> Line
    ensures value { result ≡ line_of before tag body.now (length room.old) }
    ensures room_after { room.new ≡ room_listed tag body.now room.old }
{
    let seq = seq_after(before);
    match block_line(tag, body, room) {
        Ok(listed) => Line {
            seq,
            answer: ground::ACCEPTED,
            block: listed.block,
            version: listed.version,
            words: listed.words,
        },
        Err(refusal) => Line {
            seq,
            answer: refusal.number(),
            block: 0,
            version: 0,
            words: 0,
        },
    }
}
