// The quick way for words of eight bits: each is a byte, and a compiler puts many at a time.
ghost use Rattle.std.specs.Prelude.{◌≡◌, true, ◌≤◌, length};
ghost use Rattle.room.specs.Laid.{laid};
ghost use Rattle.bits.specs.Fields.{all_fit, field_of};

use crate::each::{Fitting, put_plain};
use bits::fitting::EIGHT;

fn put_front(words: &[u16], field: &mut [u8])
    requires words_in_bounds { length words.now ≤ length field.old }
    requires fits { all_fit 8 words.now ≡ true }
    ensures { field.new ≡ laid field.old 0 words.now }
{
    for (i, word) in words.iter().enumerate() {
        field[i] = (*word % 256) as u8;
    }
}

// Behind the words no word is left to put, and zeros are.
pub(crate) fn put_bytes(words: &[u16], field: &mut [u8])
    requires words_in_bounds { length words.now ≤ length field.old }
    requires fits { all_fit 8 words.now ≡ true }
    ensures { field.new ≡ field_of 8 (length field.old) words.now }
{
    put_front(words, field);
    let count = words.len();
    let left = Fitting {
        words: &words[count..],
        size: EIGHT,
    };
    put_plain(left, &mut field[count..]);
}
