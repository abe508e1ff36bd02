// Time tags, from C. A time is seven numbers: year, day, hour, minute, second, millisecond and the flywheel mark. The leap days are lent with
// each call.
#![tactic(auto)]

ghost use Rattle.std.specs.Prelude.{◌≡◌};
ghost use Rattle.tag.specs.Tags.{read_tag, write_tag};
ghost use Rattle.time.specs.Times.{elapsed_of};
ghost use Rattle.c_tags.specs.Times.{tag_of_numbers, tag_from, numbers_of};

use c_numbers::{in_byte, in_pair, is_on, marked};
use tag::Tag;

// The tag of seven numbers, any there are.
pub fn tag_of(
    year: u32,
    day: u32,
    hour: u32,
    minute: u32,
    second: u32,
    ms: u32,
    flywheel: u32,
) -> Tag
    ensures { result ≡ tag_of_numbers year day hour minute second ms flywheel }
{
    Tag {
        year: in_pair(year),
        day: in_pair(day),
        hour: in_byte(hour),
        minute: in_byte(minute),
        second: in_byte(second),
        ms: in_pair(ms),
        flywheel: is_on(flywheel),
    }
}

pub fn numbers_of(tag: Tag) -> [u32; 7]
    ensures { result ≡ numbers_of tag }
{
    [
        tag.year as u32,
        tag.day as u32,
        tag.hour as u32,
        tag.minute as u32,
        tag.second as u32,
        tag.ms as u32,
        marked(tag.flywheel) as u32,
    ]
}

#[unsafe(no_mangle)]
pub extern "C" fn rahmisve_read_tag(tag: &[u8], leap_days: &[u32], time: &mut [u32; 7]) -> u8
    ensures value { result ≡ (read_tag leap_days.now tag.now).number }
    ensures time_after { time.new ≡ numbers_of (read_tag leap_days.now tag.now).tag }
{
    match tag::read_tag(tag, leap_days) {
        Ok(read) => {
            *time = numbers_of(read);
            ground::ACCEPTED
        }
        Err(refusal) => {
            *time = [0; 7];
            refusal.number()
        }
    }
}

#[unsafe(no_mangle)]
pub extern "C" fn rahmisve_write_tag(time: &[u32; 7], leap_days: &[u32], tag: &mut [u8; 8]) -> u8
    ensures value { result ≡ (write_tag leap_days.now (tag_from 0 time.now)).number }
    ensures tag_after { tag.new ≡ (write_tag leap_days.now (tag_from 0 time.now)).bytes }
{
    let [year, day, hour, minute, second, ms, flywheel] = *time;
    let numbers = tag_of(year, day, hour, minute, second, ms, flywheel);
    match tag::write_tag(numbers, leap_days) {
        Ok(bytes) => {
            *tag = bytes;
            ground::ACCEPTED
        }
        Err(refusal) => {
            *tag = [0; 8];
            refusal.number()
        }
    }
}

#[unsafe(no_mangle)]
pub extern "C" fn rahmisve_elapsed(from: &[u8], to: &[u8], leap_days: &[u32], ms: &mut i64) -> u8
    ensures { record { number = result; ms = ms.new } ≡ elapsed_of leap_days.now from.now to.now }
{
    match time::elapsed(from, to, leap_days) {
        Ok(between) => {
            *ms = between;
            ground::ACCEPTED
        }
        Err(refusal) => {
            *ms = 0;
            refusal.number()
        }
    }
}
