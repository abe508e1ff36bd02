// The table of field sizes: for a block number the size of its words, its records and the counts of words that it permits, and the
// length of the field that holds them.
#![tactic(auto)]

ghost use Rattle.std.specs.Prelude.{◌≡◌, ◌<◌};
ghost use Rattle.row.specs.Pixels.{visible_of, is_scan};
ghost use Rattle.row.specs.Rows.{records_in, fixed_row, infrared_row, visible_row, last_row, no_row, row_of, scan_of, permits};
ghost use Rattle.row.specs.Field.{field_bits, field_bytes};

// Block numbers and versions go from 0 to these.
pub const LAST_BLOCK: u8 = 11;

pub const LAST_VERSION: u8 = 3;

// The version with which the eighth infrared detector came, and with it a fourth record in block 2.
const EIGHTH_DETECTOR_VERSION: u8 = 3;

// Pixels on the two scales of a scan. Numbers of the two kinds are never added to one another.
#[derive(Clone, Copy)]
pub struct Infrared(pub u16);

#[derive(Clone, Copy)]
pub struct Visible(pub u32);

// One infrared pixel spans so many visible ones.
const SPAN: u32 = 4;

// The infrared pixels of the narrowest scan and of the widest, 19.2 degrees.
const NARROWEST: u16 = 1;

const WIDEST: u16 = 5236;

// The words of the longest block, of four records of the widest scan: so many hold those of any.
pub const MOST_WORDS: usize = 21008;

// The words of line documentation in front of a record's pixels.
const LINE_WORDS: u32 = 16;

// The bits of a word that holds a pixel.
const IMAGE_SIZE: u8 = 10;

// The field in blocks 0 and 11; the shortest field in the others, and the unit in which they grow.
const FIXED_BITS: u32 = 64320;

const SHORTEST_BITS: usize = 21440;

const UNIT_BITS: usize = 16;

// What a block number allows: words of `size` bits in so many records, `fixed` words and `each` for every infrared pixel of a scan.
// Where `each` is 0 there is no scan.
#[derive(Clone, Copy)]
pub struct Row {
    pub size: u8,
    pub records: u8,
    pub fixed: u32,
    pub each: u32,
}

// Four times a u16 always fits.
pub fn to_visible(n: Infrared) -> Visible
    ensures { result.0 ≡ visible_of n.0 }
{
    Visible(n.0 as u32 * SPAN)
}

// The limit of n, in one place.
fn is_scan(n: Infrared) -> bool
    ensures { result ≡ is_scan n.0 }
{
    matches!(n.0, NARROWEST..=WIDEST)
}

// The words of this size that fill the field of blocks 0 and 11.
fn fixed_row(size: u8) -> Row
    requires { 0 < size }
    ensures { result ≡ fixed_row size }
{
    Row {
        size,
        records: 0,
        fixed: FIXED_BITS / size as u32,
        each: 0,
    }
}

fn records_in_2(version: u8) -> u8
    ensures { result ≡ records_in 2 version }
{
    if version < EIGHTH_DETECTOR_VERSION {
        3
    } else {
        4
    }
}

fn infrared_row(records: u8) -> Row
    ensures { result ≡ infrared_row records }
{
    Row {
        size: IMAGE_SIZE,
        records,
        fixed: records as u32 * LINE_WORDS,
        each: records as u32,
    }
}

// A word for each of the visible pixels that one infrared pixel spans.
fn visible_row() -> Row
    ensures { result ≡ visible_row }
{
    let span = to_visible(Infrared(1));
    Row {
        size: IMAGE_SIZE,
        records: 1,
        fixed: LINE_WORDS,
        each: span.0,
    }
}

fn no_row() -> Row
    ensures { result ≡ no_row }
{
    Row {
        size: 0,
        records: 0,
        fixed: 0,
        each: 0,
    }
}

// Block 11 has words of three sizes. Asked for another it answers with the last of them, and the sizes differ.
fn last_row(size: u8) -> Row
    ensures { result ≡ last_row size }
{
    match size {
        6 => fixed_row(6),
        8 => fixed_row(8),
        _ => fixed_row(10),
    }
}

// The row of a block number. The version changes that of block 2 alone.
pub fn row_of(block: u8, version: u8, size: u8) -> Row
    ensures { result ≡ row_of block version size }
{
    match block {
        0 => fixed_row(8),
        1 => infrared_row(4),
        2 => infrared_row(records_in_2(version)),
        3..=10 => visible_row(),
        11 => last_row(size),
        _ => no_row(),
    }
}

// How wide a scan is: the n of a row and a count of words, 0 where the count has none.
pub fn scan_of(row: Row, words: u32) -> Infrared
    ensures { result.0 ≡ scan_of row words }
{
    if (row.each == 0) | (words < row.fixed) {
        return Infrared(0);
    }
    let rest = words - row.fixed;
    if 0 < rest % row.each {
        return Infrared(0);
    }
    Infrared(u16::try_from(rest / row.each).unwrap_or(0))
}

// Whether a row permits a count of words. That of an unknown block has no words and permits none.
pub fn permits(row: Row, words: u32) -> bool
    ensures { result ≡ permits row words }
{
    if row.each == 0 {
        return (0 < words) & (words == row.fixed);
    }
    is_scan(scan_of(row, words))
}

fn field_bits(block: u8, words: u32) -> usize
    ensures { result ≡ field_bits block words }
{
    if matches!(block, 0 | 11) {
        return FIXED_BITS as usize;
    }
    let bits = words as usize * IMAGE_SIZE as usize;
    SHORTEST_BITS.max(bits.next_multiple_of(UNIT_BITS))
}

// The bytes of the field of a block with so many words; in blocks 0 and 11 it is fixed.
pub fn field_bytes(block: u8, words: u32) -> usize
    ensures { result ≡ field_bytes block words }
{
    field_bits(block, words) / 8
}
