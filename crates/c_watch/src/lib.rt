// The scan watch, from C. The host keeps it as eleven numbers: open, expected block, the seven numbers of the last tag, limit, and the set
// of fill blocks.
#![tactic(auto)]

ghost use Rattle.std.specs.Prelude.{◌≡◌};
ghost use Rattle.watch_rule.specs.Rules.{closing_kind};
ghost use Rattle.watch.specs.Verdicts.{verdict_in, number_of, kind_of, fill_of, count_of};
ghost use Rattle.watch.specs.Rules.{begin_of, step_of};
ghost use Rattle.c_numbers.specs.Numbers.{up_to};
ghost use Rattle.c_watch.specs.Watches.{watch_in, numbers_of_watch, leaves, row_after, row_begun};

use c_numbers::{in_byte, is_on, marked};
use c_tags::{numbers_of, tag_of};
use watch::Verdict;
use watch_bounds::Watch;
use watch_rule::Closing;

// The numbers of what an offer did, as the header names them.
const REFUSED: u8 = 0;

const STRAY: u8 = 1;

const OPENED: u8 = 2;

const KEPT: u8 = 3;

const CLOCK_BACK: u8 = 4;

const LATE: u8 = 5;

const BROKEN: u8 = 6;

const COMPLETE: u8 = 7;

fn watch_in(row: [u32; 11]) -> Watch
    ensures { result ≡ watch_in row }
{
    let last = tag_of(row[2], row[3], row[4], row[5], row[6], row[7], row[8]);
    Watch {
        opened: is_on(row[0]),
        expected: in_byte(row[1]),
        last,
        limit: row[9],
        fill: row[10],
    }
}

fn row_of(watch: Watch) -> [u32; 11]
    ensures { result ≡ numbers_of_watch watch }
{
    let time = numbers_of(watch.last);
    [
        marked(watch.opened) as u32,
        watch.expected as u32,
        time[0],
        time[1],
        time[2],
        time[3],
        time[4],
        time[5],
        time[6],
        watch.limit,
        watch.fill,
    ]
}

fn closing_code(why: Closing) -> u8
    ensures { result ≡ closing_kind why }
{
    match why {
        Closing::ClockBack => CLOCK_BACK,
        Closing::Late => LATE,
        Closing::Broken => BROKEN,
        Closing::Complete => COMPLETE,
    }
}

fn code_of(verdict: Verdict) -> u8
    ensures { result ≡ kind_of (verdict_in verdict) }
{
    match verdict {
        Verdict::Stray => STRAY,
        Verdict::Opened => OPENED,
        Verdict::Kept => KEPT,
        Verdict::Closed { why, .. } => closing_code(why),
    }
}

// The set of fill blocks that a closing hands over, and how many they are.
fn handed(verdict: Verdict) -> (u32, u32)
    ensures { (result.0 ≡ fill_of (verdict_in verdict)) × (result.1 ≡ count_of (verdict_in verdict)) }
{
    match verdict {
        Verdict::Closed { fill, count, .. } => (fill, count),
        _ => (0, 0),
    }
}

// Whether the record comes back as it was given.
fn leaves(verdict: Verdict) -> bool
    ensures { result ≡ leaves (verdict_in verdict) }
{
    matches!(verdict, Verdict::Stray)
}

// The watch is stored into by a call that changes it, and by no other: a host may keep it where a refusal or a stray must not write.
#[unsafe(no_mangle)]
pub extern "C" fn rahmisve_watch_begin(limit: u32, watch: &mut [u32; 11]) -> u8
    ensures value { result ≡ (begin_of limit).number }
    ensures watch_after { watch.new ≡ row_begun (begin_of limit) watch.old }
{
    match watch::begin(limit) {
        Ok(fresh) => {
            *watch = row_of(fresh);
            ground::ACCEPTED
        }
        Err(refusal) => refusal.number(),
    }
}

#[unsafe(no_mangle)]
pub extern "C" fn rahmisve_watch_offer(
    watch: &mut [u32; 11],
    block: u32,
    valid: u32,
    tag: &[u8],
    leap_days: &[u32],
    verdict: &mut u8,
    fill: &mut u32,
    count: &mut u32,
) -> u8
    ensures value { result ≡ number_of (step_of leap_days.now (watch_in watch.old) (up_to 255 block) (up_to 255 valid) tag.now).verdict }
    ensures verdict_after { verdict.new ≡ kind_of (step_of leap_days.now (watch_in watch.old) (up_to 255 block) (up_to 255 valid) tag.now).verdict }
    ensures fill_after { fill.new ≡ fill_of (step_of leap_days.now (watch_in watch.old) (up_to 255 block) (up_to 255 valid) tag.now).verdict }
    ensures count_after { count.new ≡ count_of (step_of leap_days.now (watch_in watch.old) (up_to 255 block) (up_to 255 valid) tag.now).verdict }
    ensures watch_after { watch.new ≡ row_after (step_of leap_days.now (watch_in watch.old) (up_to 255 block) (up_to 255 valid) tag.now) watch.old }
{
    let answer = watch::step(
        watch_in(*watch),
        in_byte(block),
        in_byte(valid),
        tag,
        leap_days,
    );
    match answer {
        Ok(stepped) => {
            let (set, many) = handed(stepped.verdict);
            *verdict = code_of(stepped.verdict);
            *fill = set;
            *count = many;
            if leaves(stepped.verdict) {
                return ground::ACCEPTED;
            }
            *watch = row_of(stepped.next);
            ground::ACCEPTED
        }
        Err(refusal) => {
            *verdict = REFUSED;
            *fill = 0;
            *count = 0;
            refusal.number()
        }
    }
}
