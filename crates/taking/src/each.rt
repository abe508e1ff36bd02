// Words out of a field, one by one.
ghost use Rattle.std.specs.Prelude.{◌≡◌, ◌++◌, ◌*◌, ◌≤◌, length, drop};
ghost use Rattle.bits.specs.Fields.{words_of};

// `count` words of `size` bits, which lie in a field from its first bit on.
#[derive(Clone, Copy)]
pub(crate) struct Source<'a> {
    pub(crate) field: &'a [u8],
    pub(crate) size: u8,
    pub(crate) count: usize,
    ghost le_size: { (1 ≤ size) × (size ≤ 16) },
    ghost size_in_bounds: { count * size ≤ length field.now * 8 },
}

// `acc` holds the `have` bits that are read and not yet part of a word.
pub(crate) fn take_each(source: Source<'_>, room: &mut [u16])
    requires count_in_bounds { source.count ≤ length room.old }
    ensures { room.new ≡ words_of source.entry.size source.entry.count source.entry.field.now ++ drop source.entry.count room.old }
{
    let field = source.field;
    let size = source.size as usize;
    let count = source.count;
    let mut acc: usize = 0;
    let mut have: usize = 0;
    let mut at: usize = 0;
    let mut i: usize = 0;
    while i < count {
        if have < size {
            acc = acc * 256 + field[at] as usize;
            have += 8;
            at += 1;
        } else {
            have -= size;
            room[i] = (acc >> have) as u16;
            acc = acc % (1 << have);
            i += 1;
        }
    }
}
