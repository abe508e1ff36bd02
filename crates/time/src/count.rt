// What time a tag says, as a count of milliseconds.
ghost use Rattle.std.specs.Prelude.{◌≡◌, ◌<◌, ◌^◌, take};
ghost use Rattle.calendar.specs.Leaps.{most_leaps};
ghost use Rattle.time.specs.Years.{days_before};
ghost use Rattle.time.specs.Times.{count_of, time_of};

use tag::Tag;

const HOURS: u64 = 24;

const MINUTES: u64 = 60;

const SECONDS: u64 = 60;

const MS: u64 = 1000;

// The days of all years before one: a day more for each multiple of 4 and of 400 below it, one less for each of 100.
fn days_before(year: u16) -> u32
    ensures { result ≡ days_before year }
{
    let n = year as u32;
    calendar::DAYS as u32 * n + (n + 3) / 4 + (n + 399) / 400 - (n + 99) / 100
}

// Milliseconds to a tag's time with no leap seconds, for any numbers in it.
fn counted(tag: Tag) -> u64
    ensures { (result ≡ count_of tag) × (result < 2 ^ 61) }
{
    let days = days_before(tag.year) as u64 + tag.day as u64;
    let hours = days * HOURS + tag.hour as u64;
    let minutes = hours * MINUTES + tag.minute as u64;
    let seconds = minutes * SECONDS + tag.second as u64;
    seconds * MS + tag.ms as u64
}

// The same with a second for each listed day before; the difference of two fits an i64.
pub(crate) fn milliseconds(tag: Tag, leaps: &[u32]) -> u64
    ensures { (result ≡ time_of (take most_leaps leaps.now) tag) × (result < 2 ^ 62) }
{
    let count = counted(tag);
    let leap_seconds = calendar::listed_before(leaps, tag.year, tag.day);
    count + MS * leap_seconds
}
