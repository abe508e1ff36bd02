// The Sounder's status, whether a detector is suspect: c_sounder.
ghost use Rattle.std.specs.Prelude.{◌≡◌, map};
ghost use Rattle.sounder.specs.Judging.{status_of, asked_of};
ghost use Rattle.c_numbers.specs.Marks.{mark};
ghost use Rattle.c_sounder.specs.Rows.{numbers_of, row_of};

#[unsafe(no_mangle)]
pub extern "C" fn rahmisve_sounder_status(
    words: &[u16],
    leap_days: &[u32],
    status: &mut [u32; 13],
    tags: &mut [[u32; 8]; 15],
) -> u8
    ensures value { result ≡ (status_of leap_days.now words.now).number }
    ensures status_after { status.new ≡ numbers_of (status_of leap_days.now words.now) }
    ensures tags_after { tags.new ≡ map row_of (status_of leap_days.now words.now).tags }
{
    c_sounder::rahmisve_sounder_status(words, leap_days, status, tags)
}

#[unsafe(no_mangle)]
pub extern "C" fn rahmisve_sounder_suspect(
    words: &[u16],
    leap_days: &[u32],
    channel: u32,
    detector: u32,
    word: &mut u32,
    suspect: &mut u8,
) -> u8
    ensures value { result ≡ (asked_of leap_days.now words.now channel detector).number }
    ensures word_after { word.new ≡ (asked_of leap_days.now words.now channel detector).word }
    ensures suspect_after { suspect.new ≡ mark (asked_of leap_days.now words.now channel detector).suspect }
{
    c_sounder::rahmisve_sounder_suspect(words, leap_days, channel, detector, word, suspect)
}
