// The quick way for words of six and of ten bits: four words are a group of half their size in bytes, and four groups go at once. It is
// proved over the size, and leaves in the room what `each` would; whoever wants to know what that is can pass this file by.
ghost use Rattle.std.specs.Prelude.{◌≡◌, ◌++◌, ◌⊎◌, ◌+◌, ◌*◌, ◌/◌, ◌%◌, ◌≤◌, length, take, drop};
ghost use Rattle.room.specs.Laid.{laid};
ghost use Rattle.bits.specs.Bits.{bits, words, sent};
ghost use Rattle.bits.specs.Digits.{digits};
ghost use Rattle.bits.specs.Fields.{words_of};
ghost use Rattle.taking.specs.Halves.{low_bits};

use crate::each::{Source, take_each};

// The eight bytes of the field from `at` on as a number, the first one highest: a group, and the bytes behind it that come with the load. For
// a compiler this is one load and one turn; `first_chunk` and `copy_from_slice` leave tests in it, and a turn then stays out of its loop.
fn eight_from(field: &[u8], at: usize) -> u64
    requires { at + 8 ≤ length field.now }
    ensures { bits 64 result ≡ sent (take 8 (drop at field.now)) }
{
    bits::turned(u64::from_le_bytes([
        field[at],
        field[at + 1],
        field[at + 2],
        field[at + 3],
        field[at + 4],
        field[at + 5],
        field[at + 6],
        field[at + 7],
    ]))
}

// The low `size` bits of both halves of `x`.
fn low_bits(x: u64, size: usize) -> u64
    requires { size ≤ 16 }
    ensures { result ≡ low_bits size x }
{
    let low: u64 = (1 << size) - 1;
    x & (low * 0x1_0000_0001)
}

// The first four words in the 64 bits of `x`, side by side, the first one lowest: their bits as two pairs, then each pair as two words.
fn four_of(x: u64, size: usize) -> u64
    requires { (1 ≤ size) × (size ≤ 16) }
    ensures { digits 65536 4 result ≡ words size 4 (bits 64 x) }
{
    let first = x >> (64 - 2 * size);
    let second = (x >> (64 - 4 * size)) % (1 << (2 * size));
    let pairs = second * 0x1_0000_0000 + first;
    low_bits(pairs >> size, size) + low_bits(pairs, size) * 0x1_0000
}

// Four words of the field from byte `at` on, side by side.
fn four_from(source: Source<'_>, at: usize) -> u64
    requires at_in_bounds { at + 8 ≤ length source.field.now }
    ensures { digits 65536 4 result ≡ words source.entry.size 4 (sent (drop at source.entry.field.now)) }
{
    four_of(eight_from(source.field, at), source.size as usize)
}

// The four words of `x` into the room from `i` on: for a compiler this is one store.
fn put_four(x: u64, room: &mut [u16], i: usize)
    requires { i + 4 ≤ length room.old }
    ensures { room.new ≡ laid room.old i (digits 65536 4 x) }
{
    room[i] = (x % 0x1_0000) as u16;
    room[i + 1] = ((x >> 16) % 0x1_0000) as u16;
    room[i + 2] = ((x >> 32) % 0x1_0000) as u16;
    room[i + 3] = ((x >> 48) % 0x1_0000) as u16;
}

// Sixteen words of the field from byte `at` on, into the room from `i` on. All four groups are read before one is stored: the compiler does
// not know that field and room are apart, and would otherwise do one group after the other.
fn take_sixteen(source: Source<'_>, at: usize, room: &mut [u16], i: usize)
    requires size_value { source.size % 2 ≡ 0 }
    requires size_in_bounds { at + source.size / 2 * 3 + 8 ≤ length source.field.now }
    requires i_in_bounds { i + 16 ≤ length room.old }
    ensures { room.new ≡ laid room.old i (words source.entry.size 16 (sent (drop at source.entry.field.now))) }
{
    let half = source.size as usize / 2;
    let first = four_from(source, at);
    let second = four_from(source, at + half);
    let third = four_from(source, at + half * 2);
    let fourth = four_from(source, at + half * 3);
    put_four(first, room, i);
    put_four(second, room, i + 4);
    put_four(third, room, i + 8);
    put_four(fourth, room, i + 12);
}

// The first `count` words, sixteen a turn. A turn reads eight bytes from its fourth group on, and `least` words have so many; the last words,
// fewer than those, are taken one by one. The size is a constant: a compiler makes a loop of shifts by constants for each.
pub(crate) fn take_groups<const SIZE: u8>(field: &[u8], count: usize, room: &mut [u16])
    requires fact { (SIZE ≡ 6) ⊎ (SIZE ≡ 10) }
    requires size_in_bounds { count * SIZE ≤ length field.now * 8 }
    requires count_in_bounds { count ≤ length room.old }
    ensures { room.new ≡ words_of SIZE count field.now ++ drop count room.old }
{
    let size = SIZE as usize;
    let source = Source {
        field,
        size: SIZE,
        count,
    };
    let least = 13 + 56 / size;
    let mut at: usize = 0;
    let mut i: usize = 0;
    while count - i >= least {
        take_sixteen(source, at, room, i);
        at += size * 2;
        i += 16;
    }
    let left = Source {
        field: &field[at..],
        size: SIZE,
        count: count - i,
    };
    take_each(left, &mut room[i..]);
}
