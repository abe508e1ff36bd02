// Text into lent room: bytes as they are, and numbers in decimal (specs/Texts.antt). Where a text does not fit, nothing is put.
#![tactic(auto)]

ghost use Rattle.std.specs.Prelude.{◌≡◌, ◌+◌, ◌≤◌, length, drop};
ghost use Rattle.room.specs.Laid.{laid_inside};
ghost use Rattle.text.specs.Texts.{decimal, ended, ends_at, put_length};

// No number of 64 bits has more digits; a column is a number and the byte that ends it.
const DIGITS: usize = 20;

const COLUMN_BYTES: usize = 21;

// The digits of a number, and the byte that ends its column, at the end of 21 bytes; where the first digit is. No `for` fits: how many
// digits there are is known when the rest has one.
fn put_digits(n: u64, end: u8, column: &mut [u8; COLUMN_BYTES]) -> usize
    ensures upper_bound { result ≤ 20 }
    ensures column_after { drop result column.new ≡ ended (decimal n) end }
{
    column[DIGITS] = end;
    let mut rest = n;
    let mut at: usize = DIGITS;
    while 10 <= rest {
        at -= 1;
        column[at] = 48 + (rest % 10) as u8;
        rest /= 10;
    }
    at -= 1;
    column[at] = 48 + rest as u8;
    at
}

// The part of a text from `at` on; where the next part starts.
pub fn put_part(part: &[u8], room: &mut [u8], at: usize) -> usize
    ensures value { result ≡ ends_at room.old at part.now }
    ensures room_after { room.new ≡ laid_inside room.old at part.now }
    ensures upper_bound { result ≤ at + length part.now }
{
    if room::lay(part, room, at) {
        return at + part.len();
    }
    at
}

// A number, and the byte that ends its column, from `at` on; where the next column starts.
pub fn put_column(n: u64, end: u8, room: &mut [u8], at: usize) -> usize
    ensures value { result ≡ ends_at room.old at (ended (decimal n) end) }
    ensures room_after { room.new ≡ laid_inside room.old at (ended (decimal n) end) }
    ensures upper_bound { result ≤ at + 21 }
{
    let mut column = [0u8; COLUMN_BYTES];
    let start = put_digits(n, end, &mut column);
    put_part(&column[start..], room, at)
}

// The text at the front of the room; its length, or 0.
pub fn put_text(text: &[u8], room: &mut [u8]) -> usize
    ensures value { result ≡ put_length room.old text.now }
    ensures room_after { room.new ≡ laid_inside room.old 0 text.now }
{
    if room::lay(text, room, 0) {
        return text.len();
    }
    0
}
