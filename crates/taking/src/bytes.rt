// The quick way for words of eight bits: each is a byte, and a compiler takes many at a time.
ghost use Rattle.std.specs.Prelude.{◌≡◌, ◌++◌, ◌≤◌, length, drop};
ghost use Rattle.bits.specs.Fields.{words_of};

pub(crate) fn take_bytes(field: &[u8], count: usize, room: &mut [u16])
    requires count_in_bounds { count ≤ length field.now }
    requires count_in_bounds_2 { count ≤ length room.old }
    ensures { room.new ≡ words_of 8 count field.now ++ drop count room.old }
{
    for (i, byte) in field[..count].iter().enumerate() {
        room[i] = u16::from(*byte);
    }
}
