// The record that a watch is, and what an offer to it is refused for: the record's own bounds first, with the list of leap days, then the
// block that is offered and its tag. Each test is a function, so that a branch knows an equation of the test itself. The bounds stand in
// specs/Bounds.antt, what is promised of the numbers in specs/Promises.antt.
#![tactic(auto)]

ghost use Rattle.std.specs.Prelude.{◌≡◌, true, ◌≤◌, ltb};
ghost use Rattle.ground.specs.Grounds.{first_of};
ghost use Rattle.ground.specs.Refusals.{number_in};
ghost use Rattle.row.specs.Rows.{last_block};
ghost use Rattle.watch_bounds.specs.Bounds.{longest_wait, bounding, bad_expected, bad_fill, bad_last, lent, offered};

use ground::Refusal;
use tag::Tag;
use watch_rule::LAST_OF_SCAN;

// The longest waiting limit, in ms.
const LONGEST_WAIT: u32 = 3600000;

// Idle or open. Open, it has the block that it expects next, 1 to 10, the last tag, and which blocks of the scan were fill: a set, bit b
// for block b. What an idle one holds of the first two is not read, and its set is empty.
#[derive(Clone, Copy, Debug, PartialEq, Eq)]
pub struct Watch {
    pub opened: bool,
    pub expected: u8,
    pub last: Tag,
    pub limit: u32,
    pub fill: u32,
}

pub fn too_long(limit: u32) -> bool
    ensures { result ≡ ltb longest_wait limit }
{
    LONGEST_WAIT < limit
}

fn bad_expected(w: Watch) -> bool
    ensures { result ≡ bad_expected w }
{
    w.opened & ((w.expected < 1) | (LAST_OF_SCAN < w.expected))
}

// The block that all of the set are below: the expected one, and 0 while idle.
fn bounding(w: Watch) -> u8
    ensures { result ≡ bounding w }
{
    if w.opened { w.expected } else { 0 }
}

// The set of the bounding block alone is the least number that is too large.
fn bad_fill(w: Watch) -> bool
    requires { w.opened ≡ true → w.expected ≤ 10 }
    ensures { result ≡ bad_fill w }
{
    !(w.fill < (1 << bounding(w)))
}

fn bad_last(w: Watch, leaps: &[u32]) -> bool
    ensures { result ≡ bad_last leaps.now w }
{
    let good = tag::in_bounds(w.last, leaps);
    w.opened & !good
}

fn unknown_block(block: u8) -> bool
    ensures { result ≡ ltb last_block block }
{
    row::LAST_BLOCK < block
}

// The first ground that refuses the lent record or the list lent with it, where one does.
pub fn lent(w: Watch, leaps: &[u32]) -> Result<(), Refusal>
    ensures { number_in result ≡ first_of (lent leaps.now w) }
{
    if too_long(w.limit) {
        return Err(Refusal::LongLimit);
    }
    if bad_expected(w) {
        return Err(Refusal::NoRecord);
    }
    if bad_fill(w) {
        return Err(Refusal::BadFill);
    }
    if !calendar::is_good_list(leaps) {
        return Err(Refusal::BadLeapDays);
    }
    if bad_last(w, leaps) {
        return Err(Refusal::BadTag);
    }
    Ok(())
}

// The same of the offered block and its tag, which is good or not.
pub fn offered(block: u8, good: bool) -> Result<(), Refusal>
    ensures { number_in result ≡ first_of (offered block good) }
{
    if unknown_block(block) {
        return Err(Refusal::UnknownBlock);
    }
    if !good {
        return Err(Refusal::BadTag);
    }
    Ok(())
}
