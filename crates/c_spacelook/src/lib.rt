// Floating numbers, from C: what a word says, and the numbers of the two spacelook blocks. A reading is the number of its case, and a double.
#![tactic(auto)]

ghost use Rattle.std.specs.Prelude.{◌≡◌, length};
ghost use Rattle.parity.specs.declared.Layout.TheVariants.{ImagerSpacelook, SounderSpacelook};
ghost use Rattle.floating.specs.Floating.{reading_of};
ghost use Rattle.floating.specs.Cases.{case_of, value_of};
ghost use Rattle.spacelook.specs.Answers.{answer_in, case_in, value_in};
ghost use Rattle.spacelook.specs.Found.{told};
ghost use Rattle.spacelook.specs.Numbers.{found_of, told_of_all, filled_of, numbers_after, cases_after};

use floating::Reading;
use ground::Refusal;
use parity::Layout;

// The case and the double of what is read, both zero on a refusal.
fn tell(found: Result<Reading, Refusal>, reading: &mut u8, number: &mut f64) -> u8
    ensures value { result ≡ answer_in (told found) }
    ensures reading_after { reading.new ≡ case_in (told found) }
    ensures number_after { number.new ≡ value_in (told found) }
{
    let (answer, case, value) = match found {
        Ok(said) => (
            ground::ACCEPTED,
            floating::case_of(said),
            floating::value_of(said),
        ),
        Err(refusal) => (refusal.number(), 0, 0.0),
    };
    *reading = case;
    *number = value;
    answer
}

// How many numbers are read, 0 on a refusal.
fn tell_count(filled: Result<usize, Refusal>, count: &mut usize) -> u8
    ensures { record { number = result; count = count.new } ≡ told_of_all filled }
{
    let (answer, read) = match filled {
        Ok(read) => (ground::ACCEPTED, read),
        Err(refusal) => (refusal.number(), 0),
    };
    *count = read;
    answer
}

#[unsafe(no_mangle)]
pub extern "C" fn rahmisve_read_floating(word: u32, number: &mut f64) -> u8
    ensures value { result ≡ case_of (reading_of word) }
    ensures number_after { number.new ≡ value_of (reading_of word) }
{
    let reading = floating::read(word);
    *number = floating::value_of(reading);
    floating::case_of(reading)
}

#[unsafe(no_mangle)]
pub extern "C" fn rahmisve_spacelook_imager(
    words: &[u16],
    field: u32,
    index: u32,
    reading: &mut u8,
    number: &mut f64,
) -> u8
    ensures value { result ≡ answer_in (found_of ImagerSpacelook words.now field index) }
    ensures reading_after { reading.new ≡ case_in (found_of ImagerSpacelook words.now field index) }
    ensures number_after { number.new ≡ value_in (found_of ImagerSpacelook words.now field index) }
{
    let found = spacelook::read(Layout::ImagerSpacelook, words, field, index);
    tell(found, reading, number)
}

#[unsafe(no_mangle)]
pub extern "C" fn rahmisve_spacelook_sounder(
    words: &[u16],
    field: u32,
    index: u32,
    reading: &mut u8,
    number: &mut f64,
) -> u8
    ensures value { result ≡ answer_in (found_of SounderSpacelook words.now field index) }
    ensures reading_after { reading.new ≡ case_in (found_of SounderSpacelook words.now field index) }
    ensures number_after { number.new ≡ value_in (found_of SounderSpacelook words.now field index) }
{
    let found = spacelook::read(Layout::SounderSpacelook, words, field, index);
    tell(found, reading, number)
}

#[unsafe(no_mangle)]
pub extern "C" fn rahmisve_spacelook_imager_all(
    words: &[u16],
    numbers: &mut [f64],
    readings: &mut [u8],
    count: &mut usize,
) -> u8
    ensures count_after { record { number = result; count = count.new } ≡ filled_of ImagerSpacelook words.now (length numbers.old) (length readings.old) }
    ensures numbers_after { numbers.new ≡ numbers_after ImagerSpacelook words.now numbers.old (length readings.old) }
    ensures readings_after { readings.new ≡ cases_after ImagerSpacelook words.now (length numbers.old) readings.old }
{
    let filled = spacelook::read_all(Layout::ImagerSpacelook, words, numbers, readings);
    tell_count(filled, count)
}

#[unsafe(no_mangle)]
pub extern "C" fn rahmisve_spacelook_sounder_all(
    words: &[u16],
    numbers: &mut [f64],
    readings: &mut [u8],
    count: &mut usize,
) -> u8
    ensures count_after { record { number = result; count = count.new } ≡ filled_of SounderSpacelook words.now (length numbers.old) (length readings.old) }
    ensures numbers_after { numbers.new ≡ numbers_after SounderSpacelook words.now numbers.old (length readings.old) }
    ensures readings_after { readings.new ≡ cases_after SounderSpacelook words.now (length numbers.old) readings.old }
{
    let filled = spacelook::read_all(Layout::SounderSpacelook, words, numbers, readings);
    tell_count(filled, count)
}
