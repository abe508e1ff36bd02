// The bits behind the last word.
ghost use Rattle.std.specs.Prelude.{◌≡◌, ◌*◌, ◌≤◌, length, drop, fold, bit_or};
ghost use Rattle.bits.specs.Bits.{sent};
ghost use Rattle.bits.specs.Fields.{fill_of, all_zero};

// The bits of all bytes joined: no way out before the end, so that a compiler joins many bytes at a time.
fn joined(bytes: &[u8]) -> u8
    ensures { result ≡ fold bit_or 0 bytes.now }
{
    bytes.iter().fold(0, |joined, byte| joined | byte)
}

// Whether all bytes from `start` on are zero.
fn zero_from(field: &[u8], start: usize) -> bool
    requires { start ≤ length field.now }
    ensures { result ≡ all_zero (sent (drop start field.now)) }
{
    joined(&field[start..]) == 0
}

// Whether all bits behind words that fit the field are zero: the low bits of the byte in which the last word ends, then whole bytes.
pub(crate) fn zero_behind(field: &[u8], size: usize, count: usize) -> bool
    requires size_bound { size ≤ 255 }
    requires size_in_bounds { count * size ≤ length field.now * 8 }
    ensures { result ≡ all_zero (fill_of size count field.now) }
{
    let rest = count % 8 * size;
    let k = count / 8 * size + rest / 8;
    let inside = rest % 8;
    if inside == 0 {
        return zero_from(field, k);
    }
    let low = field[k] as usize % (1 << (8 - inside));
    if low != 0 {
        return false;
    }
    zero_from(field, k + 1)
}
