// The three header copies, thirty bytes each, one after the other, and the one that those which pass have in common.
ghost use Rattle.std.specs.Prelude.{◌≡◌, not, ◌&&◌, [], ◌<◌, ◌≤◌, length, take, get_or};
ghost use Rattle.ground.specs.Choice.{pick};
ghost use Rattle.check_rule.specs.Check.{passes};
ghost use Rattle.copies.specs.Copies.{header_length, copies_length, copy_at, same_as, told, agreed_of};

use crate::{COPIES, COPY_BYTES, Common, HEADER_BYTES};
use ground::Refusal;

// Copy k, from 0.
pub(crate) fn copy_at(block: &[u8], k: usize) -> [u8; COPY_BYTES]
    requires k_bound { k < 3 }
    requires copies_length_in_bounds { copies_length ≤ length block.now }
    ensures { result ≡ copy_at k block.now }
{
    let start = k * COPY_BYTES;
    let end = start + COPY_BYTES;
    let mut copy = [0u8; COPY_BYTES];
    copy.copy_from_slice(&block[start..end]);
    copy
}

fn copy_passes(copy: [u8; COPY_BYTES]) -> bool
    ensures { result ≡ passes copy }
{
    check_word::passes(&copy)
}

// Whether both pass and they differ.
fn differ(p: bool, a: [u8; COPY_BYTES], q: bool, b: [u8; COPY_BYTES]) -> bool
    ensures { result ≡ p && (q && not (same_as a b)) }
{
    p & (q & (a != b))
}

// A copy without its check word.
fn front(copy: [u8; COPY_BYTES]) -> [u8; HEADER_BYTES]
    ensures { result ≡ take header_length copy }
{
    let mut header = [0u8; HEADER_BYTES];
    header.copy_from_slice(&copy[..HEADER_BYTES]);
    header
}

// The header that the first passing copy holds.
fn header_of(copies: [[u8; COPY_BYTES]; COPIES], first: bool, second: bool) -> [u8; HEADER_BYTES]
    ensures { result ≡ take header_length (pick first (get_or copies 0 []) (pick second (get_or copies 1 []) (get_or copies 2 []))) }
{
    if first {
        return front(copies[0]);
    }
    if second {
        return front(copies[1]);
    }
    front(copies[2])
}

// What three copies have in common.
pub(crate) fn agree(
    a: [u8; COPY_BYTES],
    b: [u8; COPY_BYTES],
    c: [u8; COPY_BYTES],
) -> Result<Common, Refusal>
    ensures { told result ≡ agreed_of a b c }
{
    let copies = [a, b, c];
    let first = copy_passes(copies[0]);
    let second = copy_passes(copies[1]);
    let third = copy_passes(copies[2]);
    if !(first | (second | third)) {
        return Err(Refusal::NoCopyPasses);
    }
    let one = differ(first, copies[0], second, copies[1]);
    let two = differ(first, copies[0], third, copies[2]);
    let three = differ(second, copies[1], third, copies[2]);
    if one | (two | three) {
        return Err(Refusal::CopiesDiffer);
    }
    let header = header_of(copies, first, second);
    Ok(Common {
        header,
        first,
        second,
        third,
    })
}
