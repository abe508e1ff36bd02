// The Gregorian calendar, throughout.
ghost use Rattle.std.specs.Prelude.{◌≡◌};
ghost use Rattle.calendar.specs.Years.{leap, days_in};

// The last year that a tag has digits for.
pub const LAST_YEAR: u16 = 9999;

// Days of a year, and of a leap year.
pub const DAYS: u16 = 365;

const LEAP_YEAR_DAYS: u16 = 366;

fn is_leap(year: u16) -> bool
    ensures { result ≡ leap year }
{
    (year % 400 == 0) | ((year % 100 != 0) & (year % 4 == 0))
}

pub fn days_in(year: u16) -> u16
    ensures { result ≡ days_in year }
{
    if is_leap(year) { LEAP_YEAR_DAYS } else { DAYS }
}
