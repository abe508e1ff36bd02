// Time tags both ways, elapsed time: c_tags.
ghost use Rattle.std.specs.Prelude.{◌≡◌};
ghost use Rattle.tag.specs.Tags.{read_tag, write_tag};
ghost use Rattle.time.specs.Times.{elapsed_of};
ghost use Rattle.c_tags.specs.Times.{tag_from, numbers_of};

#[unsafe(no_mangle)]
pub extern "C" fn rahmisve_read_tag(tag: &[u8], leap_days: &[u32], time: &mut [u32; 7]) -> u8
    ensures value { result ≡ (read_tag leap_days.now tag.now).number }
    ensures time_after { time.new ≡ numbers_of (read_tag leap_days.now tag.now).tag }
{
    c_tags::rahmisve_read_tag(tag, leap_days, time)
}

#[unsafe(no_mangle)]
pub extern "C" fn rahmisve_write_tag(time: &[u32; 7], leap_days: &[u32], tag: &mut [u8; 8]) -> u8
    ensures value { result ≡ (write_tag leap_days.now (tag_from 0 time.now)).number }
    ensures tag_after { tag.new ≡ (write_tag leap_days.now (tag_from 0 time.now)).bytes }
{
    c_tags::rahmisve_write_tag(time, leap_days, tag)
}

#[unsafe(no_mangle)]
pub extern "C" fn rahmisve_elapsed(from: &[u8], to: &[u8], leap_days: &[u32], ms: &mut i64) -> u8
    ensures { record { number = result; ms = ms.new } ≡ elapsed_of leap_days.now from.now to.now }
{
    c_tags::rahmisve_elapsed(from, to, leap_days, ms)
}
