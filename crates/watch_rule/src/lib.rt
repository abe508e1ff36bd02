// The rules of a scan: what an open watch does with an offer, by four numbers. The clock decides first. The rules stand in
// specs/Rules.antt, what is promised of them in specs/Promises.antt.
#![tactic(auto)]

ghost use Rattle.std.specs.Prelude.{◌≡◌, pos};
ghost use Rattle.std.specs.Int.Signed.{lt_z};
ghost use Rattle.watch_rule.specs.Rules.{in_time, rule_of};

// The last block of a scan, which completes it.
pub const LAST_OF_SCAN: u8 = 10;

// How a scan closes.
#[derive(Clone, Copy, Debug, PartialEq, Eq)]
pub enum Closing {
    ClockBack,
    Late,
    Broken,
    Complete,
}

// What an open watch does.
#[derive(Clone, Copy, Debug, PartialEq, Eq)]
pub enum Rule {
    Keeps,
    Closes(Closing),
}

fn is_back(d: i64) -> bool
    ensures { result ≡ lt_z d (pos 0) }
{
    d < 0
}

fn is_late(limit: u32, d: i64) -> bool
    ensures { result ≡ lt_z (pos limit) d }
{
    (limit as i64) < d
}

// An offer that is neither back nor late.
fn in_time(expected: u8, block: u8) -> Rule
    ensures { result ≡ in_time expected block }
{
    if block != expected {
        return Rule::Closes(Closing::Broken);
    }
    if block == LAST_OF_SCAN {
        return Rule::Closes(Closing::Complete);
    }
    Rule::Keeps
}

// An offer d ms after the last tag, to a watch that expects a block.
pub fn rule_of(expected: u8, limit: u32, block: u8, d: i64) -> Rule
    ensures { result ≡ rule_of expected limit block d }
{
    if is_back(d) {
        return Rule::Closes(Closing::ClockBack);
    }
    if is_late(limit, d) {
        return Rule::Closes(Closing::Late);
    }
    in_time(expected, block)
}
