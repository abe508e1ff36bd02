// Lists of leap days. Each walk is over at most the days that are lent.
ghost use Rattle.std.specs.Prelude.{◌≡◌, ◌+◌, ◌*◌, ◌≤◌, length, take};
ghost use Rattle.calendar.specs.Leaps.{most_leaps, day_of, possible, follows, rises_from, good_list, listed, counts_for, listed_before};

use crate::years;

pub const MOST_LEAP_DAYS: usize = 64;

// A day is one number, year and day of the year side by side: 2016366.
const YEAR: u32 = 1000;

fn number_of(year: u16, day: u16) -> u32
    ensures { result ≡ day_of year day }
{
    year as u32 * YEAR + day as u32
}

// A day that the calendar has, in the years that a tag has digits for. Its year is always asked for: one more way out made the test slower.
fn is_possible(number: u32) -> bool
    ensures { result ≡ possible number }
{
    let year = number / YEAR;
    if (years::LAST_YEAR as u32) < year {
        return false;
    }
    let day = number % YEAR;
    let days = years::days_in(year as u16) as u32;
    (1 <= day) & (day <= days)
}

// A possible day behind the one before it.
fn follows(before: u32, number: u32) -> bool
    ensures { result ≡ follows before number }
{
    let possible = is_possible(number);
    (before < number) & possible
}

fn rises(leaps: &[u32]) -> bool
    ensures { result ≡ rises_from 0 leaps.now }
{
    let mut before = 0;
    for day in leaps {
        if !follows(before, *day) {
            return false;
        }
        before = *day;
    }
    true
}

// Whether a list is one: at most 64 possible days, rising strictly.
pub fn is_good_list(leaps: &[u32]) -> bool
    ensures { result ≡ good_list leaps.now }
{
    leaps.len() <= MOST_LEAP_DAYS && rises(leaps)
}

// No way out before the end: so the loop runs on many days at a time, and so does that of `count_before`.
fn holds(leaps: &[u32], number: u32) -> bool
    ensures { result ≡ listed leaps.now number }
{
    leaps
        .iter()
        .fold(false, |found, day| found | (*day == number))
}

// A listed day counts for the days behind it, not for itself.
fn counts_for(day: u32, number: u32) -> bool
    ensures { result ≡ counts_for day number }
{
    day < number
}

// A `for`, since `filter` with `count` took half as long again.
fn count_before(leaps: &[u32], number: u32) -> u64
    ensures { (result ≡ listed_before leaps.now number) × (result ≤ length leaps.now) }
{
    let mut count = 0;
    for day in leaps {
        count += u64::from(counts_for(*day, number));
    }
    count
}

// Whether a list, of any days, has a day of a year.
pub fn is_listed(leaps: &[u32], year: u16, day: u16) -> bool
    ensures { result ≡ listed leaps.now (day_of year day) }
{
    holds(leaps, number_of(year, day))
}

// How many of the first 64 days of a list, of any, are before a day of a year.
pub fn listed_before(leaps: &[u32], year: u16, day: u16) -> u64
    ensures { (result ≡ listed_before (take most_leaps leaps.now) (day_of year day)) × (result ≤ most_leaps) }
{
    let first = MOST_LEAP_DAYS.min(leaps.len());
    count_before(&leaps[..first], number_of(year, day))
}
