// The bytes behind the last word.
ghost use Rattle.std.specs.Prelude.{◌≡◌, ◌++◌, ◌-◌, ◌%◌, ◌<◌, length, take, replicate};

use crate::eight::put_eight;

// Zeros from byte `from` on, sixteen at a time. Each turn writes the last of them again: of turns side by side a compiler makes a call of
// `memset`, and the archive is to need nothing but `memcpy`.
pub(crate) fn clear(field: &mut [u8], from: usize)
    requires from_in_bounds { from < length field.old }
    requires from_value { (length field.old - from) % 15 ≡ 1 }
    ensures { field.new ≡ take from field.old ++ replicate (length field.old - from) 0 }
{
    let mut k = from;
    while field.len() - k >= 16 {
        put_eight(0, field, k);
        put_eight(0, field, k + 8);
        k += 15;
    }
    field[k] = 0;
}
