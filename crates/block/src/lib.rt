// Reading a block: its header copies, its information field and its check word. No block is trusted, and no field is copied. What is
// promised of it stands in specs/Promises.antt.
#![tactic(auto)]

ghost use Rattle.std.specs.Prelude.{◌≡◌, length};
ghost use Rattle.block.specs.Answers.{told_by, judged_by, room_by, told, answer_of, room_after};

use copies::Common;
use ground::Refusal;

mod field;

// What is read of a block beside its words: what the header copies have in common, and how many words there are.
#[derive(Clone, Copy, Debug, PartialEq, Eq)]
pub struct Contents {
    pub common: Common,
    pub words: usize,
}

// Reads what lies behind the header copies of a block by the header lent, whatever the copies say, and gives the count of words. They go to
// the front of the room, which a refusal leaves as it was.
pub fn read_by(header: &[u8], block: &[u8], room: &mut [u16]) -> Result<usize, Refusal>
    ensures value { told_by result ≡ judged_by header.now block.now (length room.old) }
    ensures room_after { room.new ≡ room_by header.now block.now room.old }
{
    let plan = header::plan_of(header)?;
    field::test(plan, block, room.len())?;
    field::take(plan, block, room);
    Ok(plan.words)
}

// Reads a block: by the header that its copies have in common. The words go to the front of the room, which a refusal leaves as it was.
pub fn read(block: &[u8], room: &mut [u16]) -> Result<Contents, Refusal>
    ensures value { told result ≡ answer_of block.now (length room.old) }
    ensures room_after { room.new ≡ room_after block.now room.old }
{
    let common = copies::common_copy(block)?;
    let words = read_by(&common.header, block, room)?;
    Ok(Contents { common, words })
}
