// The text of the listing (specs/Texts.antt). Each function that another crate calls puts one line at the front of lent room and answers its
// length; where the room is too small it changes nothing and answers 0.
#![tactic(auto)]

ghost use Rattle.std.specs.Prelude.{◌≡◌, ◌≤◌, length};
ghost use Rattle.room.specs.Laid.{laid, laid_inside};
ghost use Rattle.text.specs.Texts.{put_length};
ghost use Rattle.listing.specs.Texts.{first_text, block_text, refusal_text, line_text, last_word, last_text};

use recording::Line;

// A column is a number of at most 20 digits and the byte that ends it, and no line has more than five.
pub const LINE_BYTES: usize = 105;

// The line of a block: five numbers.
fn spell_block(line: Line, text: &mut [u8; LINE_BYTES]) -> usize
    ensures value { result ≡ length (block_text line) }
    ensures upper_bound { result ≤ 105 }
    ensures text_after { text.new ≡ laid text.old 0 (block_text line) }
{
    let block = text::put_column(line.seq, b' ', text, 0);
    let version = text::put_column(line.block as u64, b' ', text, block);
    let words = text::put_column(line.version as u64, b' ', text, version);
    let answer = text::put_column(line.words as u64, b' ', text, words);
    text::put_column(line.answer as u64, b'\n', text, answer)
}

// The line of a refusal: three dashes stand for the block's numbers.
fn spell_refusal(line: Line, text: &mut [u8; LINE_BYTES]) -> usize
    ensures value { result ≡ length (refusal_text line) }
    ensures upper_bound { result ≤ 105 }
    ensures text_after { text.new ≡ laid text.old 0 (refusal_text line) }
{
    let dashes = text::put_column(line.seq, b' ', text, 0);
    let answer = text::put_part(b"- - - ", text, dashes);
    text::put_column(line.answer as u64, b'\n', text, answer)
}

fn spell_line(line: Line, text: &mut [u8; LINE_BYTES]) -> usize
    ensures value { result ≡ length (line_text line) }
    ensures upper_bound { result ≤ 105 }
    ensures text_after { text.new ≡ laid text.old 0 (line_text line) }
{
    if line.answer == ground::ACCEPTED {
        return spell_block(line, text);
    }
    spell_refusal(line, text)
}

// The first line, which names the columns.
pub fn put_first(room: &mut [u8]) -> usize
    ensures value { result ≡ put_length room.old first_text }
    ensures room_after { room.new ≡ laid_inside room.old 0 first_text }
{
    text::put_text(b"seq block version words answer\n", room)
}

// The line of a field.
pub fn put_line(line: Line, room: &mut [u8]) -> usize
    ensures value { result ≡ put_length room.old (line_text line) }
    ensures room_after { room.new ≡ laid_inside room.old 0 (line_text line) }
{
    let mut text = [0u8; LINE_BYTES];
    let end = spell_line(line, &mut text);
    text::put_text(&text[..end], room)
}

fn last_word(cut: bool) -> &'static [u8]
    ensures { result.now ≡ last_word cut }
{
    if cut { b"cut " } else { b"end " }
}

// The last line, with the number of complete fields: whether the recording is cut behind them, or ends there.
pub fn put_last(cut: bool, count: u64, room: &mut [u8]) -> usize
    ensures value { result ≡ put_length room.old (last_text cut count) }
    ensures room_after { room.new ≡ laid_inside room.old 0 (last_text cut count) }
{
    let mut text = [0u8; LINE_BYTES];
    let number = text::put_part(last_word(cut), &mut text, 0);
    let end = text::put_column(count, b'\n', &mut text, number);
    text::put_text(&text[..end], room)
}
