// The elapsed time from a first tag to a second. The count behind it is in specs/Times.antt, what is promised of it in specs/Promises.antt.
#![tactic(auto)]

ghost use Rattle.std.specs.Prelude.{◌≡◌, take};
ghost use Rattle.calendar.specs.Leaps.{most_leaps};
ghost use Rattle.time.specs.Times.{between, told, elapsed_of};

use ground::Refusal;
use tag::Tag;

mod count; // milliseconds to a tag's time

// The time from a first tag to a second, of any numbers: below zero where the second tag is the earlier one. Of a list, of any days, the first
// 64 are counted: a longer one is none.
pub fn between(from: Tag, to: Tag, leaps: &[u32]) -> i64
    ensures { result ≡ between (take most_leaps leaps.now) from to }
{
    let start = count::milliseconds(from, leaps);
    let end = count::milliseconds(to, leaps);
    end as i64 - start as i64
}

// The same of two tags as lent bytes, where the list is a good one.
pub fn elapsed(from: &[u8], to: &[u8], leaps: &[u32]) -> Result<i64, Refusal>
    ensures { told result ≡ elapsed_of leaps.now from.now to.now }
{
    if !calendar::is_good_list(leaps) {
        return Err(Refusal::BadLeapDays);
    }
    let start = tag::read_by(from, leaps)?;
    let end = tag::read_by(to, leaps)?;
    Ok(between(start, end, leaps))
}
