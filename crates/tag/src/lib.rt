// CDA time tags: eight bytes of BCD digits to numbers and the flywheel mark, and back. A list of leap days is lent with each: on these days
// the last minute has a second 60. What a good tag is and what it means stands in specs/, what is promised in specs/Promises.antt.
#![tactic(auto)]

ghost use Rattle.std.specs.Prelude.{◌≡◌};
ghost use Rattle.tag.specs.Tags.{ends_day, good_second, in_bounds, told_tag, read_by, read_tag, told_bytes, write_tag, zero_tag};

use digits::BYTES;
use ground::Refusal;

mod digits; // numbers and the mark out of eight bytes, and back

// The numbers of a tag and its mark. Any are held; `in_bounds` says whether they are a tag's.
#[derive(Clone, Copy, Debug, PartialEq, Eq)]
pub struct Tag {
    pub year: u16,
    pub day: u16,
    pub hour: u8,
    pub minute: u8,
    pub second: u8,
    pub ms: u16,
    pub flywheel: bool,
}

// The bounds of a tag's numbers; of its year and its day, the calendar's.
const LAST_HOUR: u8 = 23;

const LAST_MINUTE: u8 = 59;

const LAST_SECOND: u8 = 59;

const LAST_MS: u16 = 999;

const LEAP_SECOND: u8 = 60;

fn ends_day(tag: Tag) -> bool
    ensures { result ≡ ends_day tag }
{
    (tag.hour == LAST_HOUR) & ((tag.minute == LAST_MINUTE) & (tag.second == LEAP_SECOND))
}

// The list is walked for second 60 at 23:59 alone.
fn is_second(tag: Tag, leaps: &[u32]) -> bool
    ensures { result ≡ good_second leaps.now tag }
{
    if tag.second <= LAST_SECOND {
        return true;
    }
    if !ends_day(tag) {
        return false;
    }
    calendar::is_listed(leaps, tag.year, tag.day)
}

// Whether numbers are within the bounds of a tag, by a list of leap days that is taken as it is.
pub fn in_bounds(tag: Tag, leaps: &[u32]) -> bool
    ensures { result ≡ in_bounds leaps.now tag }
{
    let days = calendar::days_in(tag.year);
    let second = is_second(tag, leaps);
    (tag.year <= calendar::LAST_YEAR)
        & ((1 <= tag.day)
            & ((tag.day <= days)
                & ((tag.hour <= LAST_HOUR)
                    & ((tag.minute <= LAST_MINUTE) & (second & (tag.ms <= LAST_MS))))))
}

// The tag of a refusal, and of an idle watch.
pub fn zero_tag() -> Tag
    ensures { result ≡ zero_tag }
{
    Tag {
        year: 0,
        day: 0,
        hour: 0,
        minute: 0,
        second: 0,
        ms: 0,
        flywheel: false,
    }
}

// Reads a tag of any lent bytes by a list that is taken as it is: for a caller who has it tested.
pub fn read_by(bytes: &[u8], leaps: &[u32]) -> Result<Tag, Refusal>
    ensures { told_tag result ≡ read_by leaps.now bytes.now }
{
    let Ok(bytes) = <&[u8; BYTES]>::try_from(bytes) else {
        return Err(Refusal::BadTag);
    };
    let tag = digits::tag_of(bytes);
    if digits::are_decimal(bytes) & in_bounds(tag, leaps) {
        Ok(tag)
    } else {
        Err(Refusal::BadTag)
    }
}

// Reads a tag of any lent bytes, where the list is a good one.
pub fn read_tag(bytes: &[u8], leaps: &[u32]) -> Result<Tag, Refusal>
    ensures { told_tag result ≡ read_tag leaps.now bytes.now }
{
    if calendar::is_good_list(leaps) {
        read_by(bytes, leaps)
    } else {
        Err(Refusal::BadLeapDays)
    }
}

// Writes a tag, of any numbers.
pub fn write_tag(tag: Tag, leaps: &[u32]) -> Result<[u8; 8], Refusal>
    ensures { told_bytes result ≡ write_tag leaps.now tag }
{
    if !calendar::is_good_list(leaps) {
        return Err(Refusal::BadLeapDays);
    }
    if !in_bounds(tag, leaps) {
        return Err(Refusal::BadTag);
    }
    Ok(digits::bytes_of(tag))
}
