// The grounds that refuse a header, and what one that none refuses asks for.
ghost use Rattle.std.specs.Prelude.{◌≡◌};
ghost use Rattle.ground.specs.Grounds.{first_of};
ghost use Rattle.ground.specs.Refusals.{number_in};
ghost use Rattle.header.specs.Plans.{unknown_block, unknown_version, wrong_size, wrong_count, header_grounds, told, granted_plan};

use crate::{EXTRA_WORDS, Plan, says};
use copies::HEADER_BYTES;
use ground::Refusal;

fn unknown_block(header: &[u8; HEADER_BYTES]) -> bool
    ensures { result ≡ unknown_block header.now }
{
    row::LAST_BLOCK < says::block_in(header)
}

fn unknown_version(header: &[u8; HEADER_BYTES]) -> bool
    ensures { result ≡ unknown_version header.now }
{
    row::LAST_VERSION < header[says::VERSION]
}

fn wrong_size(header: &[u8; HEADER_BYTES]) -> bool
    ensures { result ≡ wrong_size header.now }
{
    let row = says::row_in(header);
    row.size != header[says::SIZE]
}

fn wrong_count(header: &[u8; HEADER_BYTES]) -> bool
    ensures { result ≡ wrong_count header.now }
{
    let count = says::count_in(header);
    if count < EXTRA_WORDS {
        return true;
    }
    !row::permits(says::row_in(header), (count - EXTRA_WORDS) as u32)
}

// The first ground that refuses a header, where one does.
pub(crate) fn test(header: &[u8; HEADER_BYTES]) -> Result<(), Refusal>
    ensures { number_in result ≡ first_of (header_grounds header.now) }
{
    if unknown_block(header) {
        return Err(Refusal::UnknownBlock);
    }
    if unknown_version(header) {
        return Err(Refusal::UnknownVersion);
    }
    if wrong_size(header) {
        return Err(Refusal::WrongSize);
    }
    if wrong_count(header) {
        return Err(Refusal::WrongCount);
    }
    Ok(())
}

pub(crate) fn granted(header: &[u8; HEADER_BYTES]) -> Plan
    requires { first_of (header_grounds header.now) ≡ 0 }
    ensures { told (Ok result) ≡ granted_plan header.now }
{
    let block = says::block_in(header);
    let row = says::row_in(header);
    let words = (says::count_in(header) - EXTRA_WORDS) as u32;
    Plan {
        block,
        version: header[says::VERSION],
        size: header[says::SIZE],
        records: row.records,
        words: words as usize,
        bytes: row::field_bytes(block, words),
    }
}
