// What the words of a header say (504-02, Table 3-5).
ghost use Rattle.std.specs.Prelude.{◌≡◌};
ghost use Rattle.header.specs.Says.{number_of, block_in, count_in, row_in};

use copies::HEADER_BYTES;
use row::Row;

// The bytes that hold words 1, 2, 3 with 4, and 8.
pub(crate) const ID: usize = 0;

pub(crate) const SIZE: usize = 1;

pub(crate) const COUNT: usize = 2;

pub(crate) const VERSION: usize = 7;

// The number of a block id; 255 for one that no block has.
fn number_of(id: u8) -> u8
    ensures { result ≡ number_of id }
{
    match id {
        240 => 0,
        1..=row::LAST_BLOCK => id,
        _ => 255,
    }
}

pub(crate) fn block_in(header: &[u8; HEADER_BYTES]) -> u8
    ensures { result ≡ block_in header.now }
{
    number_of(header[ID])
}

// As it stands there: of the field's words and two more.
pub(crate) fn count_in(header: &[u8; HEADER_BYTES]) -> u16
    ensures { result ≡ count_in header.now }
{
    bits::two_bytes(header[COUNT], header[COUNT + 1])
}

pub(crate) fn row_in(header: &[u8; HEADER_BYTES]) -> Row
    ensures { result ≡ row_in header.now }
{
    row::row_of(block_in(header), header[VERSION], header[SIZE])
}
