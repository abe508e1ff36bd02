// What an accepted offer does: to an idle watch, and to an open one by the rules of a scan; and which blocks were fill, kept and handed
// over.
ghost use Rattle.std.specs.Prelude.{◌≡◌, true, ◌^◌, ◌≤◌, ◌<◌, length};
ghost use Rattle.calendar.specs.Leaps.{most_leaps};
ghost use Rattle.watch.specs.Rules.{InScan, idle, expecting, opening, handed, after_closing, closing, keeping, on_idle, on_open, on_good, step_in};

use crate::{Stepped, Verdict, fill};
use tag::Tag;
use watch_bounds::Watch;
use watch_rule::{Closing, LAST_OF_SCAN, Rule};

pub(crate) fn idle(limit: u32) -> Watch
    ensures { result ≡ idle limit }
{
    Watch {
        opened: false,
        expected: 0,
        last: tag::zero_tag(),
        limit,
        fill: 0,
    }
}

fn expecting(block: u8, t: Tag, limit: u32, set: u32) -> Watch
    ensures { result ≡ expecting block t limit set }
{
    Watch {
        opened: true,
        expected: block,
        last: t,
        limit,
        fill: set,
    }
}

// A scan that block 0 opens.
fn opening(valid: u8, t: Tag, limit: u32) -> Watch
    ensures { result ≡ opening valid t limit }
{
    let set = fill::filled(0, 0, valid);
    expecting(1, t, limit, set)
}

fn on_idle(w: Watch, block: u8, valid: u8, t: Tag) -> Stepped
    ensures { step_in result ≡ on_idle w block valid t }
{
    if block != 0 {
        return Stepped {
            next: w,
            verdict: Verdict::Stray,
        };
    }
    let next = opening(valid, t, w.limit);
    Stepped {
        next,
        verdict: Verdict::Opened,
    }
}

// The set that a closing hands over, of the one so far: the block that completes a scan belongs to it, and no other that closes one.
fn handed(set: u32, valid: u8, why: Closing) -> u32
    requires { set < 2 ^ 10 }
    ensures { result ≡ handed set valid why }
{
    match why {
        Closing::ClockBack => set,
        Closing::Late => set,
        Closing::Broken => set,
        Closing::Complete => fill::filled(set, LAST_OF_SCAN, valid),
    }
}

// Where the offer that closes a scan is block 0, it opens the next one as well.
fn after_closing(block: u8, valid: u8, t: Tag, limit: u32) -> Watch
    ensures { result ≡ after_closing block valid t limit }
{
    if block == 0 {
        opening(valid, t, limit)
    } else {
        idle(limit)
    }
}

fn close(w: Watch, block: u8, valid: u8, t: Tag, why: Closing) -> Stepped
    requires { w.fill < 2 ^ 10 }
    ensures { step_in result ≡ closing w block valid t why }
{
    let set = handed(w.fill, valid, why);
    let count = fill::count(set);
    let next = after_closing(block, valid, t, w.limit);
    Stepped {
        next,
        verdict: Verdict::Closed {
            why,
            fill: set,
            count,
        },
    }
}

// The expected block in time: the next one is expected, and the tag is kept.
fn keep(w: Watch, valid: u8, t: Tag) -> Stepped
    requires { InScan w }
    ensures { step_in result ≡ keeping w valid t }
{
    let set = fill::filled(w.fill, w.expected, valid);
    let next = expecting(w.expected + 1, t, w.limit, set);
    Stepped {
        next,
        verdict: Verdict::Kept,
    }
}

// An offer d ms after the last tag.
fn on_open(w: Watch, block: u8, valid: u8, t: Tag, d: i64) -> Stepped
    requires { InScan w }
    ensures { step_in result ≡ on_open w block valid t d }
{
    match watch_rule::rule_of(w.expected, w.limit, block, d) {
        Rule::Keeps => keep(w, valid, t),
        Rule::Closes(why) => close(w, block, valid, t, why),
    }
}

// An offer of a known block with a good tag, by a list of at most 64 leap days.
pub(crate) fn on_good(w: Watch, block: u8, valid: u8, t: Tag, leaps: &[u32]) -> Stepped
    requires { (w.opened ≡ true → InScan w) × (length leaps.now ≤ most_leaps) }
    ensures { step_in result ≡ on_good leaps.now w block valid t }
{
    if w.opened {
        let d = time::between(w.last, t, leaps);
        on_open(w, block, valid, t, d)
    } else {
        on_idle(w, block, valid, t)
    }
}
