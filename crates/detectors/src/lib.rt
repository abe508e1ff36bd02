// Which of the Sounder's 76 detectors are suspect, by its detector status (504-02 Table 3-10, words 33 to 42): ten bytes with a bit for each
// detector, which two numbers of 64 bits hold. What the bits say is in specs/Status.antt, what is promised in specs/Promises.antt.
#![tactic(auto)]

ghost use Rattle.std.specs.Prelude.{◌≡◌, true, ◌++◌, ◌<◌, eqb, get_or};
ghost use Rattle.bits.specs.Bits.{bits};
ghost use Rattle.detectors.specs.Status.{detectors, spare_zero, set_in, before_set, place_at, before, suspects_of, inside, asked_of, told};

use ground::Refusal;

// A detector by its channel, 1 to 19, and its number in it, 1 to 4.
#[derive(Clone, Copy, Debug, PartialEq, Eq)]
pub struct Detector {
    pub channel: u32,
    pub number: u32,
}

// How many detectors are suspect, and the first of them, where there is one.
#[derive(Clone, Copy, Debug, PartialEq, Eq)]
pub struct Suspects {
    pub count: u32,
    pub first: Option<Detector>,
}

// The bits of the detectors in the order sent: the first 64, and the last 12.
#[derive(Clone, Copy)]
struct Held {
    high: u64,
    low: u64,
}

const CHANNELS: u32 = 19;

const IN_CHANNEL: u32 = 4;

// The last 4 bits of the status stand for no detector and are left out.
fn hold(status: &[u8; 10]) -> Held
    ensures { (result.low < 4096) × (detectors status.now ≡ bits 64 result.high ++ bits 12 result.low) }
{
    let [a, b, c, d, e, f, g, h, i, j] = *status;
    Held {
        high: u64::from_be_bytes([a, b, c, d, e, f, g, h]),
        low: u64::from(u16::from_be_bytes([i, j]) / 16),
    }
}

// Whether the last 4 bits, which stand for no detector, are zero.
pub fn spare_is_zero(status: [u8; 10]) -> bool
    ensures { result ≡ spare_zero status }
{
    status[9] % 16 == 0
}

fn count_in(held: Held) -> u32
    requires { held.low < 4096 }
    ensures { result ≡ set_in (bits 64 held.high ++ bits 12 held.low) }
{
    held.high.count_ones() + held.low.count_ones()
}

// The detector whose bit has so many before it.
fn place_at(before: u32) -> Option<Detector>
    ensures { result ≡ place_at before }
{
    if CHANNELS * IN_CHANNEL <= before {
        return None;
    }
    Some(Detector {
        channel: before / IN_CHANNEL + 1,
        number: before % IN_CHANNEL + 1,
    })
}

// In 64 bits the last 12 have 52 zeros before them.
fn first_in(held: Held) -> Option<Detector>
    requires { held.low < 4096 }
    ensures { result ≡ place_at (before_set (bits 64 held.high ++ bits 12 held.low)) }
{
    let before = held.high.leading_zeros();
    if before < 64 {
        return place_at(before);
    }
    place_at(12 + held.low.leading_zeros())
}

// Bit i of the 76.
fn bit_in(held: Held, i: u32) -> bool
    requires { i < 76 }
    ensures { result ≡ eqb (get_or (bits 64 held.high ++ bits 12 held.low) i 0) 1 }
{
    if i < 64 {
        return (held.high >> (63 - i)) % 2 == 1;
    }
    (held.low >> (75 - i)) % 2 == 1
}

// The suspect detectors, counted, and the first of them.
pub fn suspects_of(status: [u8; 10]) -> Suspects
    ensures { result ≡ suspects_of status }
{
    let held = hold(&status);
    Suspects {
        count: count_in(held),
        first: first_in(held),
    }
}

fn is_inside(channel: u32, detector: u32) -> bool
    ensures { result ≡ inside channel detector }
{
    (1 <= channel) & ((channel <= CHANNELS) & ((1 <= detector) & (detector <= IN_CHANNEL)))
}

// How many bits stand before that of a detector.
fn bits_before(channel: u32, detector: u32) -> u32
    requires { inside channel detector ≡ true }
    ensures { (result ≡ before channel detector) × (result < 76) }
{
    (channel - 1) * IN_CHANNEL + (detector - 1)
}

// Whether the detector of a channel, any that are asked for, is suspect.
pub fn ask(status: [u8; 10], channel: u32, detector: u32) -> Result<bool, Refusal>
    ensures { told result ≡ asked_of status channel detector }
{
    if !is_inside(channel, detector) {
        return Err(Refusal::NoRecord);
    }
    Ok(bit_in(hold(&status), bits_before(channel, detector)))
}
