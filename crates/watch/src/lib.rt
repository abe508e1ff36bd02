// The watch that follows blocks 0 to 10 of a scan: how it begins, one offer to it by value, and the thin function over a watch that the
// host lends. With each offer come the block's data valid word and the list of leap days. What an offer does stands in specs/Rules.antt,
// what is promised of any sequence of offers in specs/Promises.antt, and of the blocks that were fill in specs/Filled.antt.
#![tactic(auto)]

ghost use Rattle.std.specs.Prelude.{◌≡◌};
ghost use Rattle.watch.specs.Verdicts.{told};
ghost use Rattle.watch.specs.Rules.{told_begun, begin_of, told_step, step_of};

use ground::Refusal;
use watch_bounds::Watch;
use watch_rule::Closing;

mod fill; // which blocks were fill
mod rules; // what an accepted offer does

// What an accepted offer did; specs/Verdicts.antt has the number of each case. A closing hands over the set of the scan's fill blocks and how
// many they are.
#[derive(Clone, Copy, Debug, PartialEq, Eq)]
pub enum Verdict {
    Stray,
    Opened,
    Kept,
    Closed { why: Closing, fill: u32, count: u32 },
}

#[derive(Clone, Copy, Debug, PartialEq, Eq)]
pub struct Stepped {
    pub next: Watch,
    pub verdict: Verdict,
}

// Begins a watch with a waiting limit in ms.
pub fn begin(limit: u32) -> Result<Watch, Refusal>
    ensures { told_begun result ≡ begin_of limit }
{
    if watch_bounds::too_long(limit) {
        return Err(Refusal::LongLimit);
    }
    Ok(rules::idle(limit))
}

// One offer, by value: a block number, its data valid word and its tag's bytes, with the list of leap days. The list is tested once, before
// the tag is read.
pub fn step(w: Watch, block: u8, valid: u8, tag: &[u8], leaps: &[u32]) -> Result<Stepped, Refusal>
    ensures { told_step w result ≡ step_of leaps.now w block valid tag.now }
{
    watch_bounds::lent(w, leaps)?;
    let read = tag::read_by(tag, leaps);
    watch_bounds::offered(block, read.is_ok())?;
    let t = read?;
    Ok(rules::on_good(w, block, valid, t, leaps))
}

// One offer to a watch that the host lends, changed where it stands.
pub fn offer(
    w: &mut Watch,
    block: u8,
    valid: u8,
    tag: &[u8],
    leaps: &[u32],
) -> Result<Verdict, Refusal>
    ensures { (w.new ≡ (step_of leaps.now w.old block valid tag.now).next) × (told result ≡ (step_of leaps.now w.old block valid tag.now).verdict) }
{
    let s = step(*w, block, valid, tag, leaps)?;
    *w = s.next;
    Ok(s.verdict)
}
