// What a block is made of, from C: the check word of a message, words of a size out of a field, and into one.
#![tactic(auto)]

ghost use Rattle.std.specs.Prelude.{◌≡◌, length};
ghost use Rattle.ground.specs.Refusals.{number_in};
ghost use Rattle.check_rule.specs.Check.{check_word};
ghost use Rattle.bits.specs.Fields.{take_answer, room_taken, put_answer, field_put};
ghost use Rattle.c_numbers.specs.Numbers.{up_to};

use c_numbers::in_byte;
use ground::Refusal;

fn number_of(answer: Result<(), Refusal>) -> u8
    ensures { result ≡ number_in answer }
{
    match answer {
        Ok(()) => ground::ACCEPTED,
        Err(refusal) => refusal.number(),
    }
}

#[unsafe(no_mangle)]
pub extern "C" fn rahmisve_check_word(message: &[u8]) -> u16
    ensures { result ≡ check_word message.now }
{
    check_word::check_word(message)
}

#[unsafe(no_mangle)]
pub extern "C" fn rahmisve_take_words(field: &[u8], size: u32, count: usize, room: &mut [u16]) -> u8
    ensures value { result ≡ take_answer (up_to 255 size) count field.now (length room.old) }
    ensures room_after { room.new ≡ room_taken (up_to 255 size) count field.now room.old }
{
    number_of(taking::take_words(field, in_byte(size), count, room))
}

#[unsafe(no_mangle)]
pub extern "C" fn rahmisve_put_words(words: &[u16], size: u32, field: &mut [u8]) -> u8
    ensures value { result ≡ put_answer (up_to 255 size) words.now (length field.old) }
    ensures field_after { field.new ≡ field_put (up_to 255 size) words.now field.old }
{
    number_of(putting::put_words(words, in_byte(size), field))
}
