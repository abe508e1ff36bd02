// The information field of a block with its check word: the grounds that refuse it, and its words.
ghost use Rattle.std.specs.Prelude.{◌≡◌, ◌++◌, ◌≤◌, length, drop};
ghost use Rattle.ground.specs.Grounds.{first_of};
ghost use Rattle.ground.specs.Refusals.{number_in};
ghost use Rattle.bits.specs.Fields.{words_of};
ghost use Rattle.row.specs.Promises.{longest_field, Held};
ghost use Rattle.block.specs.Layout.{block_length, information_field};
ghost use Rattle.block.specs.Grounds.{field_grounds};

use check_word::CHECK_BYTES;
use copies::COPIES_BYTES;
use ground::Refusal;
use header::Plan;

// The first ground that refuses the field, in the order 8, 17, 9, 10, 11.
pub(crate) fn test(plan: Plan, block: &[u8], room: usize) -> Result<(), Refusal>
    requires { plan.bytes ≤ longest_field }
    ensures { number_in result ≡ first_of (field_grounds plan.size plan.words plan.bytes block.now room) }
{
    let end = COPIES_BYTES + plan.bytes;
    if block.len() != end + CHECK_BYTES {
        return Err(Refusal::WrongLength);
    }
    if end % 2 != 0 {
        return Err(Refusal::OffBoundary);
    }
    if room < plan.words {
        return Err(Refusal::SmallRoom);
    }
    if !check_word::passes(&block[COPIES_BYTES..]) {
        return Err(Refusal::CheckDisagrees);
    }
    if !bits::fill_is_zero(&block[COPIES_BYTES..end], plan.size, plan.words) {
        return Err(Refusal::FillNotZero);
    }
    Ok(())
}

// Takes the words of a field that no ground refuses to the front of the room.
pub(crate) fn take(plan: Plan, block: &[u8], room: &mut [u16])
    requires held { Held plan.size plan.words plan.bytes }
    requires block_len { length block.now ≡ block_length plan.bytes }
    requires words_in_bounds { plan.words ≤ length room.old }
    ensures { room.new ≡ words_of plan.size plan.words (information_field plan.bytes block.now) ++ drop plan.words room.old }
{
    let end = COPIES_BYTES + plan.bytes;
    let _ = taking::take_words(&block[COPIES_BYTES..end], plan.size, plan.words, room);
}
