// The block that a header copy makes of the bytes from a start on: that copy in all three places, and behind them field and check word as
// they lie. It is there where the copy passes and the reader accepts what is made so.
#![tactic(auto)]

ghost use Rattle.std.specs.Prelude.{◌≡◌, ◌<◌, length};
ghost use Rattle.made.specs.Made.{begun_by, bytes_by, scratch_by};

use check_word::CHECK_BYTES;
use copies::{COPIES, COPIES_BYTES, COPY_BYTES, HEADER_BYTES};
use row::MOST_WORDS;

// How long the block is that a copy begins, where it begins one: what its header says is cheaper to test than its check word.
fn begun_by(rest: &[u8], copy: usize) -> Option<usize>
    requires { copy < 3 }
    ensures { result ≡ begun_by copy rest.now }
{
    if rest.len() < COPIES_BYTES {
        return None;
    }
    let start = copy * COPY_BYTES;
    let Ok(plan) = header::plan_of(&rest[start..start + HEADER_BYTES]) else {
        return None;
    };
    let bytes = COPIES_BYTES + plan.bytes + CHECK_BYTES;
    if rest.len() < bytes {
        return None;
    }
    if check_word::passes(&rest[start..start + COPY_BYTES]) {
        return Some(bytes);
    }
    None
}

// The bytes of the acceptable block that a copy, from 0, makes of the front of these bytes, and its words to the front of the scratch
// words. Where it makes none, or these are fewer than the largest block has, they are as they were.
pub fn bytes_by(rest: &[u8], copy: usize, scratch: &mut [u16]) -> Option<usize>
    ensures value { result ≡ bytes_by copy rest.now (length scratch.old) }
    ensures scratch_after { scratch.new ≡ scratch_by copy rest.now scratch.old }
{
    if scratch.len() < MOST_WORDS {
        return None;
    }
    if COPIES <= copy {
        return None;
    }
    let bytes = begun_by(rest, copy)?;
    let start = copy * COPY_BYTES;
    let header = &rest[start..start + HEADER_BYTES];
    let Ok(_) = block::read_by(header, &rest[..bytes], scratch) else {
        return None;
    };
    Some(bytes)
}
