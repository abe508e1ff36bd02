// A tag's sixteen BCD digits: the numbers and the mark out of eight bytes, and back.
ghost use Rattle.std.specs.Prelude.{◌≡◌, ◌&&◌, ◌+◌, ◌*◌, ◌/◌, ◌%◌, ◌<◌, leb};
ghost use Rattle.ground.specs.Choice.{pick};
ghost use Rattle.tag.specs.Digits.{decimal};
ghost use Rattle.tag.specs.Tags.{tag_digits, tag_of, bytes_of};

use crate::Tag;

pub(crate) const BYTES: usize = 8;

const LAST_DIGIT: u8 = 9;

// The first bit of byte 3.
const MARK: u8 = 128;

fn without_mark(third: u8) -> u8
    ensures { result ≡ third % 128 }
{
    third % MARK
}

// Neither digit of a byte is above 9.
fn is_bcd(b: u8) -> bool
    ensures { result ≡ leb (b / 16) 9 && leb (b % 16) 9 }
{
    (b / 16 <= LAST_DIGIT) & (b % 16 <= LAST_DIGIT)
}

// No digit of eight bytes is above 9.
pub(crate) fn are_decimal(bytes: &[u8; BYTES]) -> bool
    ensures { result ≡ decimal (tag_digits bytes.now) }
{
    let [a, b, c, d, e, f, g, h] = *bytes;
    is_bcd(a)
        & (is_bcd(b)
            & (is_bcd(without_mark(c))
                & (is_bcd(d) & (is_bcd(e) & (is_bcd(f) & (is_bcd(g) & is_bcd(h)))))))
}

// The number of a byte's two digits.
fn pair(b: u8) -> u16
    ensures { result ≡ b / 16 * 10 + b % 16 }
{
    (b / 16 * 10 + b % 16) as u16
}

// The number of the last digit of a byte and the first of the next.
fn across(a: u8, b: u8) -> u8
    ensures { result ≡ a % 16 * 10 + b / 16 }
{
    a % 16 * 10 + b / 16
}

// Four digits: two bytes.
fn four(a: u8, b: u8) -> u16
    ensures { result ≡ (a / 16 * 10 + a % 16) * 100 + (b / 16 * 10 + b % 16) }
{
    pair(a) * 100 + pair(b)
}

// Three digits: a byte and the first digit of the next.
fn three_to(a: u8, b: u8) -> u16
    ensures { result ≡ (a / 16 * 10 + a % 16) * 10 + b / 16 }
{
    pair(a) * 10 + (b / 16) as u16
}

// Three digits: the last digit of a byte and the next byte.
fn three_from(a: u8, b: u8) -> u16
    ensures { result ≡ a % 16 * 100 + (b / 16 * 10 + b % 16) }
{
    (a % 16) as u16 * 100 + pair(b)
}

// What eight bytes say, digits above 9 and numbers out of bounds among them.
pub(crate) fn tag_of(bytes: &[u8; BYTES]) -> Tag
    ensures { result ≡ tag_of bytes.now }
{
    let [a, b, c, d, e, f, g, h] = *bytes;
    Tag {
        year: four(a, b),
        day: three_to(without_mark(c), d),
        hour: across(d, e),
        minute: across(e, f),
        second: across(f, g),
        ms: three_from(g, h),
        flywheel: MARK <= c,
    }
}

// The byte of a number's last two digits.
fn packed(n: u16) -> u8
    ensures { result ≡ n / 10 % 10 * 16 + n % 10 }
{
    (n / 10 % 10 * 16 + n % 10) as u8
}

// The byte of one number's last digit and the tens of the next.
fn joined(a: u16, b: u16) -> u8
    ensures { result ≡ a % 10 * 16 + b / 10 % 10 }
{
    (a % 10 * 16 + b / 10 % 10) as u8
}

fn with_mark(flywheel: bool, third: u8) -> u8
    requires { third < 128 }
    ensures { result ≡ pick flywheel 128 0 + third }
{
    if flywheel { MARK + third } else { third }
}

// The eight bytes of a tag. A day of at most 799 leaves the first bit of byte 3 to the mark.
pub(crate) fn bytes_of(tag: Tag) -> [u8; BYTES]
    requires { tag.day < 800 }
    ensures { result ≡ bytes_of tag }
{
    let a = packed(tag.year / 100);
    let b = packed(tag.year);
    let c = with_mark(tag.flywheel, packed(tag.day / 10));
    let d = joined(tag.day, tag.hour as u16);
    let e = joined(tag.hour as u16, tag.minute as u16);
    let f = joined(tag.minute as u16, tag.second as u16);
    let g = joined(tag.second as u16, tag.ms / 10);
    let h = packed(tag.ms);
    [a, b, c, d, e, f, g, h]
}
