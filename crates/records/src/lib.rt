// Record access: where a detector record lies in the words that a block was decoded to, and that part of them.
#![tactic(auto)]

ghost use Rattle.std.specs.Prelude.{◌≡◌, ◌<◌, length};
ghost use Rattle.records.specs.Records.{told, part_of, record_of};

use ground::Refusal;

// Where a record lies in the words, counted from 0.
#[derive(Clone, Copy, Debug, PartialEq, Eq)]
pub struct Part {
    pub start: usize,
    pub length: usize,
}

// Where record k, from 1, lies in so many decoded words of the block with this header.
pub fn locate(header: &[u8], words: usize, k: u8) -> Result<Part, Refusal>
    ensures { told result ≡ part_of header.now k words }
{
    let plan = header::plan_of(header)?;
    if (k == 0) | (plan.records < k) {
        return Err(Refusal::NoRecord);
    }
    if words < plan.words {
        return Err(Refusal::SmallRoom);
    }
    let length = plan.words / plan.records as usize;
    let start = (k - 1) as usize * length;
    Ok(Part { start, length })
}

// The record's part of the words; empty where `locate` refuses.
pub fn record_in<'a>(header: &[u8], words: &'a [u16], k: u8) -> &'a [u16]
    ensures { result.now ≡ record_of header.now k words.now }
{
    let Ok(part) = locate(header, words.len(), k) else {
        return &[];
    };
    let end = part.start + part.length;
    &words[part.start..end]
}
