// The text of a salvage's report (specs/Texts.antt). Each function that another crate calls puts one line at the front of lent room and
// answers its length; where the room is too small it changes nothing and answers 0.
#![tactic(auto)]

ghost use Rattle.std.specs.Prelude.{◌≡◌, ◌≤◌, length};
ghost use Rattle.room.specs.Laid.{laid, laid_inside};
ghost use Rattle.text.specs.Texts.{ended, put_length};
ghost use Rattle.report.specs.Texts.{first_text, kind_text, changed_text, entry_text, last_text};

// What the third number of an entry is where it stands for a span; every other number is a block's.
const SPAN: usize = 8;

// Two columns of a number, the longer kind and three copies, each with the byte that ends it.
pub const LINE_BYTES: usize = 54;

// What was found, and the space behind it.
fn kind_column(found: usize) -> &'static [u8]
    ensures { result.now ≡ ended (kind_text found) 0x20 }
{
    if found == SPAN { b"span " } else { b"block " }
}

// The changed copies and LF. Copies 1, 2 and 3 are 1, 2 and 4 of what was found, and a span has none.
fn changed_column(found: usize) -> &'static [u8]
    ensures { result.now ≡ ended (changed_text found) 0x0A }
{
    match found % 8 {
        0 => b"-\n",
        1 => b"1\n",
        2 => b"2\n",
        3 => b"1,2\n",
        4 => b"3\n",
        5 => b"1,3\n",
        6 => b"2,3\n",
        _ => b"1,2,3\n",
    }
}

fn spell_entry(start: usize, bytes: usize, found: usize, text: &mut [u8; LINE_BYTES]) -> usize
    ensures value { result ≡ length (entry_text start bytes found) }
    ensures upper_bound { result ≤ 54 }
    ensures text_after { text.new ≡ laid text.old 0 (entry_text start bytes found) }
{
    let length = text::put_column(start as u64, b' ', text, 0);
    let kind = text::put_column(bytes as u64, b' ', text, length);
    let changed = text::put_part(kind_column(found), text, kind);
    text::put_part(changed_column(found), text, changed)
}

// The first line, which names the columns.
pub fn put_first(room: &mut [u8]) -> usize
    ensures value { result ≡ put_length room.old first_text }
    ensures room_after { room.new ≡ laid_inside room.old 0 first_text }
{
    text::put_text(b"start bytes found changed\n", room)
}

// The line of a block or a span, by its entry's three numbers.
pub fn put_entry(start: usize, bytes: usize, found: usize, room: &mut [u8]) -> usize
    ensures value { result ≡ put_length room.old (entry_text start bytes found) }
    ensures room_after { room.new ≡ laid_inside room.old 0 (entry_text start bytes found) }
{
    let mut text = [0u8; LINE_BYTES];
    let end = spell_entry(start, bytes, found, &mut text);
    text::put_text(&text[..end], room)
}

// The last line, with the number of blocks.
pub fn put_last(blocks: usize, room: &mut [u8]) -> usize
    ensures value { result ≡ put_length room.old (last_text blocks) }
    ensures room_after { room.new ≡ laid_inside room.old 0 (last_text blocks) }
{
    let mut text = [0u8; LINE_BYTES];
    let count = text::put_part(b"end ", &mut text, 0);
    let end = text::put_column(blocks as u64, b'\n', &mut text, count);
    text::put_text(&text[..end], room)
}
