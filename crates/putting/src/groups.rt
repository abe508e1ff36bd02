// The quick way for words of six and of ten bits: four words are a group of half their size in bytes, and four groups go at once. It is
// proved over the size, and leaves in the field what `each` would; whoever wants to know what that is can pass this file by.
ghost use Rattle.std.specs.Prelude.{◌≡◌, true, ◌++◌, ◌⊎◌, ◌+◌, ◌-◌, ◌*◌, ◌/◌, ◌%◌, ◌^◌, ◌≤◌, length, take, drop, replicate};
ghost use Rattle.room.specs.Laid.{laid};
ghost use Rattle.bits.specs.Bits.{bits, spell};
ghost use Rattle.bits.specs.Digits.{digits};
ghost use Rattle.bits.specs.Fields.{all_fit, field_of};

use crate::each::{Fitting, put_plain};
use crate::eight::put_eight;

// The bits of four words from `i` on, at the high end of a number, and zeros behind them.
fn joined(fitting: Fitting<'_>, i: usize) -> u64
    requires i_in_bounds { i + 4 ≤ length fitting.words.now }
    ensures { bits 64 result ≡ spell fitting.entry.size (take 4 (drop i fitting.entry.words.now)) ++ replicate (64 - 4 * fitting.entry.size) 0 }
{
    let words = fitting.words;
    let size = fitting.size as usize;
    let two = ((words[i] as u64) << size) + words[i + 1] as u64;
    let three = (two << size) + words[i + 2] as u64;
    let four = (three << size) + words[i + 3] as u64;
    four << (64 - 4 * size)
}

// The same as eight bytes side by side, the first one lowest.
fn group_from(fitting: Fitting<'_>, i: usize) -> u64
    requires i_in_bounds { i + 4 ≤ length fitting.words.now }
    ensures { digits 256 8 result ≡ field_of fitting.entry.size 8 (take 4 (drop i fitting.entry.words.now)) }
{
    bits::turned(joined(fitting, i))
}

// Sixteen words from `i` on, into the field from byte `at` on. What a store leaves behind its group, the next one overwrites; behind the
// fourth group zeros are left. All four groups are read before one is stored, as in `taking`.
fn put_sixteen(fitting: Fitting<'_>, i: usize, field: &mut [u8], at: usize)
    requires size_value { fitting.size % 2 ≡ 0 }
    requires i_in_bounds { i + 16 ≤ length fitting.words.now }
    requires size_in_bounds { at + fitting.size / 2 * 3 + 8 ≤ length field.old }
    ensures { field.new ≡ laid field.old at (field_of fitting.entry.size (fitting.entry.size / 2 * 3 + 8) (take 16 (drop i fitting.entry.words.now))) }
{
    let half = fitting.size as usize / 2;
    let first = group_from(fitting, i);
    let second = group_from(fitting, i + 4);
    let third = group_from(fitting, i + 8);
    let fourth = group_from(fitting, i + 12);
    put_eight(first, field, at);
    put_eight(second, field, at + half);
    put_eight(third, field, at + half * 2);
    put_eight(fourth, field, at + half * 3);
}

// All words, sixteen a turn. A turn writes eight bytes from its fourth group on, and `least` words need so many; the last words, fewer than
// those, are put one by one, over what the last turn wrote too far. The size is a constant, as in `taking`.
pub(crate) fn put_groups<const SIZE: u8>(words: &[u16], field: &mut [u8])
    requires fact { (SIZE ≡ 6) ⊎ (SIZE ≡ 10) }
    requires size_in_bounds { length words.now * SIZE ≤ length field.old * 8 }
    requires fits { all_fit SIZE words.now ≡ true }
    ensures { field.new ≡ field_of SIZE (length field.old) words.now }
{
    let size = SIZE as usize;
    let fitting = Fitting { words, size: SIZE };
    let least = 13 + 56 / size;
    let mut i: usize = 0;
    let mut at: usize = 0;
    while words.len() - i >= least {
        put_sixteen(fitting, i, field, at);
        i += 16;
        at += size * 2;
    }
    let left = Fitting {
        words: &words[i..],
        size: SIZE,
    };
    put_plain(left, &mut field[at..]);
}
