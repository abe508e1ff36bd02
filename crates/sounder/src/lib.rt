// A Sounder documentation block (504-02 Table 3-10), which is 8,040 words of eight bits: which detectors are suspect, the counts of the scan,
// the fields of the frame against their ranges, and fifteen time tags. What is right is in specs/, what is promised in specs/Promises.antt.
#![tactic(auto)]

ghost use Rattle.std.specs.Prelude.{◌≡◌, Ok, IfOk};
ghost use Rattle.sounder.specs.Judging.{fault_in, told_status, told_asked, refusal_of, accepted_as, status_of, asked_of};

use detectors::Detector;
use ground::Refusal;
use tag::Tag;
use words::Block;

mod frame; // the frame fields and their ranges
mod words; // words as bytes, as numbers and as tags

// What such a block says. A bad tag among its tags is a refusal of that one alone.
#[derive(Clone, Copy, Debug, PartialEq, Eq)]
pub struct Status {
    pub suspects: u32,
    pub first: Option<Detector>,
    pub raw: u16,
    pub blocks: u16,
    pub frame: [u16; 7],
    pub tags: [Result<Tag, Refusal>; 15],
}

// Why a block is refused, with the first word of the frame field that 22 names, and 0 with every other refusal.
#[derive(Clone, Copy, Debug, PartialEq, Eq)]
pub struct Fault {
    pub why: Refusal,
    pub word: u16,
}

impl From<Refusal> for Fault {
    ghost from_gives = { λ why fault. fault ≡ record { why = why; word = 0 } };

    fn from(why: Refusal) -> Fault {
        Fault { why, word: 0 }
    }
}

// The first words of the counts.
const RAW_BLOCKS: usize = 43;

const BLOCKS: usize = 45;

// Tests 8, 14, 21, 22, 19, in this order.
fn tested<'a>(words: &'a [u16], leaps: &[u32]) -> Result<Block<'a>, Fault>
    ensures why { fault_in result ≡ refusal_of leaps.now words.now }
    ensures same { IfOk result (λ block. block.words.now ≡ words.now) }
{
    parity::ground_of(words)?;
    let block = Block { words };
    if !detectors::spare_is_zero(block.status()) {
        return Err(Fault::from(Refusal::SpareBit));
    }
    if let Some(word) = frame::first_out(frame::frame_of(block)) {
        return Err(Fault {
            why: Refusal::OutOfRange,
            word,
        });
    }
    if !calendar::is_good_list(leaps) {
        return Err(Fault::from(Refusal::BadLeapDays));
    }
    Ok(block)
}

fn accepted(block: Block<'_>, leaps: &[u32]) -> Status
    ensures { told_status (Ok result) ≡ accepted_as leaps.now block.entry.words.now }
{
    let found = detectors::suspects_of(block.status());
    Status {
        suspects: found.count,
        first: found.first,
        raw: block.number_at(RAW_BLOCKS),
        blocks: block.number_at(BLOCKS),
        frame: frame::frame_of(block),
        tags: block.tags(leaps),
    }
}

// Judges a block by a list of leap days.
pub fn judge(words: &[u16], leaps: &[u32]) -> Result<Status, Fault>
    ensures { told_status result ≡ status_of leaps.now words.now }
{
    let block = tested(words, leaps)?;
    Ok(accepted(block, leaps))
}

// Judges a block and asks for one detector, any: 13, where there is none such, comes last.
pub fn ask(words: &[u16], leaps: &[u32], channel: u32, detector: u32) -> Result<bool, Fault>
    ensures { told_asked result ≡ asked_of leaps.now words.now channel detector }
{
    let block = tested(words, leaps)?;
    Ok(detectors::ask(block.status(), channel, detector)?)
}
