// Words of `size` bits into a field of bytes, with zeros behind them. The meaning is in the crate `bits`, specs/Fields.antt. No size, no
// length and no word is trusted.
#![tactic(auto)]

ghost use Rattle.std.specs.Prelude.{◌≡◌, ◌*◌, ◌≤◌, length};
ghost use Rattle.ground.specs.Refusals.{number_in};
ghost use Rattle.bits.specs.Fields.{put_answer, field_put, field_of};

use bits::fitting::{EIGHT, SIX, TEN};
use each::Fitting;
use ground::Refusal;

mod bytes;
mod each;
mod eight;
mod fitting;
mod groups;
mod zeros;

// Words that fit the field and their size: those of the format's sizes the quick way, of all others one by one.
fn put_fitting(fitting: Fitting<'_>, field: &mut [u8])
    requires size_in_bounds { length fitting.words.now * fitting.size ≤ length field.old * 8 }
    ensures { field.new ≡ field_of fitting.entry.size (length field.old) fitting.entry.words.now }
{
    match fitting.size {
        SIX => groups::put_groups::<SIX>(fitting.words, field),
        TEN => groups::put_groups::<TEN>(fitting.words, field),
        EIGHT => bytes::put_bytes(fitting.words, field),
        _ => each::put_plain(fitting, field),
    }
}

// Puts the words into all of the field, with zeros behind them. A refusal leaves the field as it was.
pub fn put_words(words: &[u16], size: u8, field: &mut [u8]) -> Result<(), Refusal>
    ensures value { number_in result ≡ put_answer size words.now (length field.old) }
    ensures field_after { field.new ≡ field_put size words.now field.old }
{
    if bits::fitting::is_bad_size(size) {
        return Err(Refusal::WrongSize);
    }
    if !bits::fitting::they_fit(words.len(), size, field.len()) {
        return Err(Refusal::SmallRoom);
    }
    if !fitting::all_fit(words, size) {
        return Err(Refusal::LargeWord);
    }
    put_fitting(Fitting { words, size }, field);
    Ok(())
}
