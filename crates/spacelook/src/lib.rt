// The floating numbers of the two spacelook blocks 1: the arrays that the tables call 4 x N, read by field and index, or all of them. What is
// right is in specs/, and the table of arrays in specs/Arrays.antt.
#![tactic(auto)]

ghost use Rattle.std.specs.Prelude.{◌≡◌, map, ◌≤◌, ◌<◌, ◌+◌, length, unwrap_or};
ghost use Rattle.std.proofs.Math.Seq.{paste};
ghost use Rattle.parity.specs.Words.{ground_of};
ghost use Rattle.floating.specs.Cases.{case_of, value_of};
ghost use Rattle.spacelook.specs.Arrays.{Inside, arrays_in, size_of, no_array, row_of};
ghost use Rattle.spacelook.specs.Found.{told};
ghost use Rattle.spacelook.specs.Numbers.{pair_at, word_at, found_of, readings_in, all_of, told_of_all, filled_of, front_of, numbers_after, cases_after};

use floating::Reading;
use ground::Refusal;
use parity::Layout;

// An array of numbers, four words each: its first word, counted from 1, and how many numbers it has.
#[derive(Clone, Copy)]
struct Array(usize, usize);

const NUMBER_WORDS: usize = 4;

// The arrays of the Imager's block 1; specs/Arrays.antt has their names.
const IMAGER: &[Array] = &[
    Array(403, 15),
    Array(463, 15),
    Array(523, 15),
    Array(583, 15),
    Array(643, 7),
    Array(671, 7),
    Array(883, 15),
    Array(943, 15),
    Array(1003, 15),
    Array(1063, 15),
    Array(1123, 7),
    Array(1151, 7),
    Array(1183, 120),
    Array(1663, 120),
    Array(2143, 120),
    Array(2623, 120),
    Array(3103, 120),
    Array(3583, 120),
    Array(4063, 120),
    Array(4543, 120),
    Array(5023, 120),
    Array(5503, 120),
    Array(5983, 120),
    Array(6463, 120),
    Array(6943, 120),
    Array(7423, 120),
];

// The arrays of the Sounder's.
const SOUNDER: &[Array] = &[
    Array(1135, 76),
    Array(1439, 76),
    Array(1743, 76),
    Array(2047, 76),
    Array(2351, 72),
    Array(2639, 72),
];

fn arrays_in(layout: Layout) -> &'static [Array]
    ensures { result.now ≡ arrays_in layout }
{
    match layout {
        Layout::ImagerSpacelook => IMAGER,
        Layout::SounderSpacelook => SOUNDER,
    }
}

// How many numbers all arrays of a layout have.
fn count_in(layout: Layout) -> usize
    ensures { result ≡ (size_of layout).1 }
{
    match layout {
        Layout::ImagerSpacelook => 1828,
        Layout::SounderSpacelook => 448,
    }
}

// A field's array, fields being counted from 1, where there is one.
fn row_of(layout: Layout, field: u32) -> Option<Array>
    ensures { unwrap_or result no_array ≡ row_of layout field }
{
    let k = (field as usize).checked_sub(1)?;
    arrays_in(layout).get(k).copied()
}

// Two words from one on, counted from 1, as a number: the first is the high one.
fn pair_at(words: &[u16], k: usize) -> u32
    requires { (ground_of words.now ≡ 0) × ((1 ≤ k) × (k < 8040)) }
    ensures { (result ≡ pair_at words.now k) × (result < 65536) }
{
    words[k - 1] as u32 * 256 + words[k] as u32
}

// Four words as one.
fn word_at(words: &[u16], k: usize) -> u32
    requires { (ground_of words.now ≡ 0) × ((1 ≤ k) × (k + 3 ≤ 8040)) }
    ensures { result ≡ word_at words.now k }
{
    pair_at(words, k) * 65536 + pair_at(words, k + 2)
}

// What stands at an index of a field, counted from 0, in a block that `parity::ground_of` accepts.
pub fn read(layout: Layout, words: &[u16], field: u32, index: u32) -> Result<Reading, Refusal>
    ensures { told result ≡ found_of layout words.now field index }
{
    parity::ground_of(words)?;
    let Some(Array(first, count)) = row_of(layout, field) else {
        return Err(Refusal::NoRecord);
    };
    let k = index as usize;
    if count <= k {
        return Err(Refusal::NoRecord);
    }
    Ok(floating::read(word_at(words, first + NUMBER_WORDS * k)))
}

// The numbers of one array into the rooms from `at` on, with the case of each.
fn fill_array(words: &[u16], row: Array, numbers: &mut [f64], cases: &mut [u8], at: usize)
    requires words_value { (ground_of words.now ≡ 0) × Inside row }
    requires row_in_bounds { (at + row.1 ≤ length numbers.old) × (at + row.1 ≤ length cases.old) }
    ensures numbers_after { numbers.new ≡ paste numbers.old at (map value_of (readings_in words.now row)) row.1 }
    ensures cases_after { cases.new ≡ paste cases.old at (map case_of (readings_in words.now row)) row.1 }
{
    let Array(first, count) = row;
    for k in 0..count {
        let reading = floating::read(word_at(words, first + NUMBER_WORDS * k));
        numbers[at + k] = floating::value_of(reading);
        cases[at + k] = floating::case_of(reading);
    }
}

// The arrays of a layout, one behind the other.
fn fill(words: &[u16], layout: Layout, numbers: &mut [f64], cases: &mut [u8])
    requires words_value { ground_of words.now ≡ 0 }
    requires layout_in_bounds { ((size_of layout).1 ≤ length numbers.old) × ((size_of layout).1 ≤ length cases.old) }
    ensures numbers_after { numbers.new ≡ front_of (map value_of (all_of layout words.now)) numbers.old }
    ensures cases_after { cases.new ≡ front_of (map case_of (all_of layout words.now)) cases.old }
{
    let arrays = arrays_in(layout);
    let mut at: usize = 0;
    for row in arrays {
        fill_array(words, *row, numbers, cases, at);
        at += row.1;
    }
}

// All numbers of a block, field by field, to the front of the rooms: the numbers to one, their cases to the other. Answers how many.
pub fn read_all(
    layout: Layout,
    words: &[u16],
    numbers: &mut [f64],
    cases: &mut [u8],
) -> Result<usize, Refusal>
    ensures value { told_of_all result ≡ filled_of layout words.now (length numbers.old) (length cases.old) }
    ensures numbers_after { numbers.new ≡ numbers_after layout words.now numbers.old (length cases.old) }
    ensures cases_after { cases.new ≡ cases_after layout words.now (length numbers.old) cases.old }
{
    parity::ground_of(words)?;
    let count = count_in(layout);
    if numbers.len() < count {
        return Err(Refusal::SmallRoom);
    }
    if cases.len() < count {
        return Err(Refusal::SmallRoom);
    }
    fill(words, layout, numbers, cases);
    Ok(count)
}
