// The calendar: leap years and the days of a year, and the lists of leap days that are lent with a tag. What a list must be and what is asked
// of it stands in specs/Leaps.antt.
#![tactic(auto)]

mod leaps; // lists of leap days
mod years; // leap years, the days of a year

pub use leaps::{MOST_LEAP_DAYS, is_good_list, is_listed, listed_before};
pub use years::{DAYS, LAST_YEAR, days_in};
