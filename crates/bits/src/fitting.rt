// Whether words fit: their size, and their number.
ghost use Rattle.std.specs.Prelude.{◌≡◌};
ghost use Rattle.bits.specs.Fields.{fit, bad_size};

const MOST_BITS: u8 = 16;

// The sizes of the format's fields: these words are taken and put the quick way.
pub const SIX: u8 = 6;

pub const EIGHT: u8 = 8;

pub const TEN: u8 = 10;

pub fn is_bad_size(size: u8) -> bool
    ensures { result ≡ bad_size size }
{
    (size == 0) | (MOST_BITS < size)
}

// Whether `count` words of `size` bits fit `len` bytes. Eight words take `size` bytes, and no product here can overflow.
pub fn they_fit(count: usize, size: u8, len: usize) -> bool
    ensures { result ≡ fit count size len }
{
    if size == 0 {
        return true;
    }
    let bytes = size as usize;
    let eights = count / 8;
    if len / bytes < eights {
        return false;
    }
    (count % 8 * bytes + 7) / 8 <= len - eights * bytes
}
