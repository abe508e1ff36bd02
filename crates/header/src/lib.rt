// What a header says of its block, and the plan that comes of it.
#![tactic(auto)]

ghost use Rattle.std.specs.Prelude.{◌≡◌};
ghost use Rattle.header.specs.Plans.{told, plan_of};

use copies::HEADER_BYTES;
use ground::Refusal;

mod plans;
mod says;

// The words that a header's count has beyond the field's: they hold the block's check word.
pub const EXTRA_WORDS: u16 = 2;

// What a header asks for. `words` is C, the data words before fill, and `bytes` the length of the field.
#[derive(Clone, Copy, Debug, PartialEq, Eq)]
pub struct Plan {
    pub block: u8,
    pub version: u8,
    pub size: u8,
    pub records: u8,
    pub words: usize,
    pub bytes: usize,
}

// The plan of 28 header bytes, which the reader gives back and the writer and record access take.
pub fn plan_of(header: &[u8]) -> Result<Plan, Refusal>
    ensures { told result ≡ plan_of header.now }
{
    let Ok(header) = <&[u8; HEADER_BYTES]>::try_from(header) else {
        return Err(Refusal::NoHeader);
    };
    plans::test(header)?;
    Ok(plans::granted(header))
}
