// Whether every word has at most `size` bits.
ghost use Rattle.std.specs.Prelude.{◌≡◌, ◌≤◌, fold, bit_or};
ghost use Rattle.bits.specs.Fields.{all_fit};

// The bits of all words joined: no way out before the end, so that a compiler joins many words at a time.
fn joined(words: &[u16]) -> u16
    ensures { result ≡ fold bit_or 0 words.now }
{
    words.iter().fold(0, |joined, word| joined | word)
}

pub(crate) fn all_fit(words: &[u16], size: u8) -> bool
    requires { size ≤ 16 }
    ensures { result ≡ all_fit size words.now }
{
    u32::from(joined(words)) < 1 << size
}
