// Blocks found among junk: a recording of them, and a report of every block and of every span skipped. What is promised of it stands in
// specs/Promises.antt.
#![tactic(auto)]

ghost use Rattle.std.specs.Prelude.{◌≡◌, ◌<◌, ◌≤◌, length};
ghost use Rattle.copies.specs.Copies.{copies_length, copy_at};
ghost use Rattle.salvaging.specs.Answers.{small_rooms, told, salvaged_of, recording_after, report_after, scratch_after};

use copies::COPY_BYTES;
use ground::Refusal;
use row::MOST_WORDS;

mod notes;
mod search;
mod writes;

// The bytes of the shortest block: 90 of header copies, a field of 2,680, two of check word.
const SHORTEST_BLOCK: usize = 2772;

// What an entry of the report is made of: a start, a length, and what was found there.
pub const ENTRY_NUMBERS: usize = 3;

// What is found in a span; of a block it is the sum of 1, 2 and 4 for the first, second and third copy that changed.
pub const SPAN: usize = 8;

// What a salvage gives: the bytes of the recording, the entries of the report, and how many of these are blocks.
#[derive(Clone, Copy, Debug, PartialEq, Eq)]
pub struct Salvaged {
    pub bytes: usize,
    pub entries: usize,
    pub blocks: usize,
}

// The thirty bytes of a copy, from 0.
fn copy_at(rest: &[u8], copy: usize) -> &[u8]
    requires { (copy < 3) × (copies_length ≤ length rest.now) }
    ensures { result.now ≡ copy_at copy rest.now }
{
    let start = copy * COPY_BYTES;
    &rest[start..start + COPY_BYTES]
}

// Whether an input of so many bytes could need more room than is lent.
fn small_rooms(input: usize, recording: usize, report: usize, scratch: usize) -> bool
    requires { input < 9223372036854775808 }
    ensures { result ≡ small_rooms input recording report scratch }
{
    let most = input / SHORTEST_BLOCK;
    (recording < input + most * 3)
        | (report < (most * 2 + 1) * ENTRY_NUMBERS)
        | (scratch < MOST_WORDS)
}

// Searches the input from byte 0: the lowest start with an acceptable block, by the first copy that makes one, then on behind its end. The
// blocks go to the front of the recording, the entries to that of the report; the scratch words have the words of each block in turn.
pub fn salvage(
    input: &[u8],
    recording: &mut [u8],
    report: &mut [usize],
    scratch: &mut [u16],
) -> Result<Salvaged, Refusal>
    ensures value { told result ≡ salvaged_of input.now (length recording.old) (length report.old) (length scratch.old) }
    ensures recording_after { recording.new ≡ recording_after input.now recording.old (length report.old) (length scratch.old) }
    ensures report_after { report.new ≡ report_after input.now (length recording.old) report.old (length scratch.old) }
    ensures scratch_after { scratch.new ≡ scratch_after input.now (length recording.old) (length report.old) scratch.old }
{
    if small_rooms(input.len(), recording.len(), report.len(), scratch.len()) {
        return Err(Refusal::SmallRoom);
    }
    let Some(first) = search::find(input, 0, scratch) else {
        return Err(Refusal::NoBlock);
    };
    let mut next = Some(first);
    let mut from: usize = 0;
    let mut end: usize = 0;
    let mut entries: usize = 0;
    let mut blocks: usize = 0;
    while let Some(hit) = next {
        let rest = &input[hit.start..];
        let span = notes::put_span(report, entries, from, hit.start);
        let changed = notes::changed(rest, hit.copy);
        entries = notes::put(report, span, hit.start, hit.bytes, changed);
        end = writes::put_block(rest, hit.copy, hit.bytes, recording, end);
        blocks += 1;
        from = hit.start + hit.bytes;
        next = search::find(input, from, scratch);
    }
    entries = notes::put_span(report, entries, from, input.len());
    Ok(Salvaged {
        bytes: end,
        entries,
        blocks,
    })
}
