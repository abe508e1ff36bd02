// Words into a field, one by one.
ghost use Rattle.std.specs.Prelude.{◌≡◌, true, ◌*◌, ◌≤◌, length};
ghost use Rattle.bits.specs.Fields.{all_fit, field_of};

use crate::zeros::clear;

// Words of which none has more than `size` bits.
#[derive(Clone, Copy)]
pub(crate) struct Fitting<'a> {
    pub(crate) words: &'a [u16],
    pub(crate) size: u8,
    ghost le_size: { (1 ≤ size) × (size ≤ 16) },
    ghost fits: { all_fit size words.now ≡ true },
}

// `acc` holds the `have` bits that are put and not yet part of a byte; behind the last word they are filled up with zeros.
fn put_each(fitting: Fitting<'_>, field: &mut [u8])
    requires size_in_bounds { length fitting.words.now * fitting.size ≤ length field.old * 8 }
    ensures { field.new ≡ field_of fitting.entry.size (length field.old) fitting.entry.words.now }
{
    let words = fitting.words;
    let size = fitting.size as usize;
    let mut acc: usize = 0;
    let mut have: usize = 0;
    let mut i: usize = 0;
    let mut at: usize = 0;
    while at < field.len() {
        if have >= 8 {
            have -= 8;
            field[at] = (acc >> have) as u8;
            acc = acc % (1 << have);
            at += 1;
        } else if i < words.len() {
            acc = (acc << size) + words[i] as usize;
            have += size;
            i += 1;
        } else {
            acc = acc << (8 - have);
            have = 8;
        }
    }
}

// The same, and the bytes behind the last word many at a time: all but the first few are cleared, then the words are put in front of them.
pub(crate) fn put_plain(fitting: Fitting<'_>, field: &mut [u8])
    requires size_in_bounds { length fitting.words.now * fitting.size ≤ length field.old * 8 }
    ensures { field.new ≡ field_of fitting.entry.size (length field.old) fitting.entry.words.now }
{
    let count = fitting.words.len();
    let size = fitting.size as usize;
    let end = count / 8 * size + (count % 8 * size + 7) / 8;
    let behind = field.len() - end;
    if behind == 0 {
        put_each(fitting, field);
        return;
    }
    let from = end + (behind - 1) % 15;
    clear(field, from);
    put_each(fitting, &mut field[..from]);
}
