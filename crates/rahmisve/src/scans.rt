// The scan watch: c_watch.
ghost use Rattle.std.specs.Prelude.{◌≡◌};
ghost use Rattle.watch.specs.Verdicts.{number_of, kind_of, fill_of, count_of};
ghost use Rattle.watch.specs.Rules.{begin_of, step_of};
ghost use Rattle.c_numbers.specs.Numbers.{up_to};
ghost use Rattle.c_watch.specs.Watches.{watch_in, row_after, row_begun};

#[unsafe(no_mangle)]
pub extern "C" fn rahmisve_watch_begin(limit: u32, watch: &mut [u32; 11]) -> u8
    ensures value { result ≡ (begin_of limit).number }
    ensures watch_after { watch.new ≡ row_begun (begin_of limit) watch.old }
{
    c_watch::rahmisve_watch_begin(limit, watch)
}

#[unsafe(no_mangle)]
pub extern "C" fn rahmisve_watch_offer(
    watch: &mut [u32; 11],
    block: u32,
    valid: u32,
    tag: &[u8],
    leap_days: &[u32],
    verdict: &mut u8,
    fill: &mut u32,
    count: &mut u32,
) -> u8
    ensures value { result ≡ number_of (step_of leap_days.now (watch_in watch.old) (up_to 255 block) (up_to 255 valid) tag.now).verdict }
    ensures verdict_after { verdict.new ≡ kind_of (step_of leap_days.now (watch_in watch.old) (up_to 255 block) (up_to 255 valid) tag.now).verdict }
    ensures fill_after { fill.new ≡ fill_of (step_of leap_days.now (watch_in watch.old) (up_to 255 block) (up_to 255 valid) tag.now).verdict }
    ensures count_after { count.new ≡ count_of (step_of leap_days.now (watch_in watch.old) (up_to 255 block) (up_to 255 valid) tag.now).verdict }
    ensures watch_after { watch.new ≡ row_after (step_of leap_days.now (watch_in watch.old) (up_to 255 block) (up_to 255 valid) tag.now) watch.old }
{
    c_watch::rahmisve_watch_offer(watch, block, valid, tag, leap_days, verdict, fill, count)
}
