// The three header copies in front of a block, of which the passing ones must be equal, and the header that they have in common.
#![tactic(auto)]

ghost use Rattle.std.specs.Prelude.{◌≡◌};
ghost use Rattle.copies.specs.Copies.{told, common_of};

use ground::Refusal;

mod compare;

// A header as it is given back and lent, without its check word; a copy of it with one; the copies in front of a field, and how many.
pub const HEADER_BYTES: usize = 28;

pub const COPY_BYTES: usize = 30;

pub const COPIES_BYTES: usize = 90;

pub const COPIES: usize = 3;

// What the three copies have in common: the header's 28 bytes, and which copies passed.
#[derive(Clone, Copy, Debug, PartialEq, Eq)]
pub struct Common {
    pub header: [u8; HEADER_BYTES],
    pub first: bool,
    pub second: bool,
    pub third: bool,
}

// Reads the three copies in front of a block.
pub fn common_copy(block: &[u8]) -> Result<Common, Refusal>
    ensures { told result ≡ common_of block.now }
{
    if block.len() < COPIES_BYTES {
        return Err(Refusal::NoHeader);
    }
    let a = compare::copy_at(block, 0);
    let b = compare::copy_at(block, 1);
    let c = compare::copy_at(block, 2);
    compare::agree(a, b, c)
}
