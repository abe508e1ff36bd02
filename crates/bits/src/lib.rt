// Bits in the order sent, most significant first, and words of `size` bits in a field of bytes: whether they fit, and the fill behind the
// last one. The meaning is in specs/Bits.antt and specs/Fields.antt. No size and no length is trusted.
#![tactic(auto)]

ghost use Rattle.std.specs.Prelude.{◌≡◌, ◌+◌, ◌*◌};
ghost use Rattle.bits.specs.Bits.{value, sent};
ghost use Rattle.bits.specs.Digits.{digits};
ghost use Rattle.bits.specs.Fields.{fill_of, all_zero};

mod fill;
pub mod fitting;

// The number of two bytes, the high one first.
pub fn two_bytes(high: u8, low: u8) -> u16
    ensures { result ≡ high * 256 + low }
{
    u16::from_be_bytes([high, low])
}

// The bytes of `x` in the other order: for a compiler this is one instruction.
pub fn turned(x: u64) -> u64
    ensures { result ≡ value (sent (digits 256 8 x)) }
{
    x.swap_bytes()
}

// Whether every bit behind the first `count` words is zero. Where the words take up the whole field there is none, and it is so.
pub fn fill_is_zero(field: &[u8], size: u8, count: usize) -> bool
    ensures { result ≡ all_zero (fill_of size count field.now) }
{
    if !fitting::they_fit(count, size, field.len()) {
        return true;
    }
    fill::zero_behind(field, size as usize, count)
}
