// The check word of a message, and whether a string is a message followed by it. What it is and what it finds is in check_rule; how it is
// computed, 128 bytes a turn, in check_window.
#![tactic(auto)]

ghost use Rattle.std.specs.Prelude.{◌≡◌};
ghost use Rattle.check_rule.specs.Check.{check_word};
ghost use Rattle.check_rule.specs.Check as check;

// The length of a check word.
pub const CHECK_BYTES: usize = 2;

// The check word of a message.
pub fn check_word(message: &[u8]) -> u16
    ensures { result ≡ check_word message.now }
{
    check_window::check_by_turn(message)
}

// Whether the last two bytes are the check word of those before them, high byte first.
pub fn passes(s: &[u8]) -> bool
    ensures { result ≡ check.passes s.now }
{
    let Some((message, check)) = s.split_last_chunk::<CHECK_BYTES>() else {
        return false;
    };
    check_word(message) == u16::from_be_bytes(*check)
}
