// The four-byte floating numbers of the format (504-02 section 3.5.4), of base 16: a sign bit, an exponent of seven bits and a fraction of
// 24. What is right is in specs/Floating.antt: the f64 given is equal to the number, and none is rounded.
#![tactic(auto)]

ghost use Rattle.std.specs.Prelude.{◌≡◌, false, ◌<◌, ◌≤◌};
ghost use Rattle.floating.specs.Floating.{number_of, signed_of, reading_of};
ghost use Rattle.floating.specs.Cases.{case_of, value_of};

// What the four bytes of a number say.
#[derive(Clone, Copy, Debug, PartialEq)]
pub enum Reading {
    Number(f64),
    Zero,
    // A fraction whose first hexadecimal digit is 0, in a word that is not 0.
    NotNormal,
}

// The numbers of the cases, for callers that have no enum.
pub const ZERO: u8 = 0;

pub const NUMBER: u8 = 1;

pub const NOT_NORMAL: u8 = 2;

// A word from here on has its sign bit set.
const SIGN: u32 = 0x8000_0000;

// A magnitude divided by this is its exponent, and the remainder its fraction.
const FRACTION: u32 = 0x0100_0000;

// The least fraction whose first hexadecimal digit is not 0.
const LEAST_NORMAL: u32 = 0x0010_0000;

// The exponent's field of an f64 that is 2 ^ -280, and the weight of that field.
const UNIT: u64 = 743;

const FIELD: u64 = 0x10_0000_0000_0000;

// fraction * 16 ^ exponent / 2 ^ 280. The second factor is a power of two, made from its bit pattern, so the product is exact.
fn unsigned(fraction: u32, exponent: u32) -> f64
    requires { (0 < fraction) × ((fraction < 0x1000000) × (exponent < 128)) }
    ensures { result ≡ number_of false fraction exponent }
{
    (fraction as f64) * f64::from_bits((exponent as u64 * 4 + UNIT) * FIELD)
}

// What a magnitude says with its sign, in a word that is not 0.
fn signed(negative: bool, magnitude: u32) -> Reading
    requires { magnitude ≤ 0x80000000 }
    ensures { result ≡ signed_of negative magnitude }
{
    let fraction = magnitude % FRACTION;
    if fraction < LEAST_NORMAL {
        return Reading::NotNormal;
    }
    let size = unsigned(fraction, magnitude / FRACTION);
    if negative {
        return Reading::Number(-size);
    }
    Reading::Number(size)
}

// What a word says, the first of its four bytes being the highest. A negative number's magnitude is the complement of the whole word.
pub fn read(word: u32) -> Reading
    ensures { result ≡ reading_of word }
{
    if word == 0 {
        return Reading::Zero;
    }
    if word < SIGN {
        return signed(false, word);
    }
    signed(true, !word + 1)
}

pub fn case_of(reading: Reading) -> u8
    ensures { result ≡ case_of reading }
{
    match reading {
        Reading::Number(_) => NUMBER,
        Reading::Zero => ZERO,
        Reading::NotNormal => NOT_NORMAL,
    }
}

// The number, or 0.0 where there is none.
pub fn value_of(reading: Reading) -> f64
    ensures { result ≡ value_of reading }
{
    match reading {
        Reading::Number(x) => x,
        Reading::Zero => 0.0,
        Reading::NotNormal => 0.0,
    }
}
