// The check word, 128 bytes a turn: sixteen words of 64 bits are folded into the next sixteen by shifts of whole words alone, since
// x^1024 = x^768 + x^320 + 1 modulo the generator.
#![tactic(auto)]

ghost use Rattle.std.specs.Prelude.{◌≡◌};
ghost use Rattle.check_rule.specs.Check.{check_word};
ghost use Rattle.check_eight.specs.Eight.{big};
ghost use Rattle.check_window.specs.Turn.{mirror, mirrors, pushes, chunks, horner};

use check_eight::{check_by_eight, check_from, word_behind};

// Sixteen words of eight bytes, the first that was read first. In each the byte that was read first is the lowest.
type Window = [u64; 16];

// The sixteen words of `w` with those of `d` behind them, as sixteen words.
fn turn(w: Window, d: Window) -> Window
    ensures { result ≡ pushes w d }
{
    let v0 = w[0];
    let v1 = w[1];
    let v2 = w[2];
    let v3 = w[3];
    let v4 = w[4] ^ v0;
    let v5 = w[5] ^ v1;
    let v6 = w[6] ^ v2;
    let v7 = w[7] ^ v3;
    let v8 = w[8] ^ v4;
    let v9 = w[9] ^ v5;
    let v10 = w[10] ^ v6;
    let v11 = (w[11] ^ v0) ^ v7;
    let v12 = (w[12] ^ v1) ^ v8;
    let v13 = (w[13] ^ v2) ^ v9;
    let v14 = (w[14] ^ v3) ^ v10;
    let v15 = (w[15] ^ v4) ^ v11;
    [
        ((d[0] ^ v0) ^ v5) ^ v12,
        ((d[1] ^ v1) ^ v6) ^ v13,
        ((d[2] ^ v2) ^ v7) ^ v14,
        ((d[3] ^ v3) ^ v8) ^ v15,
        (d[4] ^ v4) ^ v9,
        (d[5] ^ v5) ^ v10,
        (d[6] ^ v6) ^ v11,
        (d[7] ^ v7) ^ v12,
        (d[8] ^ v8) ^ v13,
        (d[9] ^ v9) ^ v14,
        (d[10] ^ v10) ^ v15,
        d[11] ^ v11,
        d[12] ^ v12,
        d[13] ^ v13,
        d[14] ^ v14,
        d[15] ^ v15,
    ]
}

// The same with four words.
fn turn4(w: Window, d: [u64; 4]) -> Window
    ensures { result ≡ pushes w d }
{
    [
        w[4] ^ w[0],
        w[5] ^ w[1],
        w[6] ^ w[2],
        w[7] ^ w[3],
        w[8],
        w[9],
        w[10],
        w[11] ^ w[0],
        w[12] ^ w[1],
        w[13] ^ w[2],
        w[14] ^ w[3],
        w[15],
        d[0] ^ w[0],
        d[1] ^ w[1],
        d[2] ^ w[2],
        d[3] ^ w[3],
    ]
}

// Eight bytes as a number, the first one lowest.
fn number_of(word: [u8; 8]) -> u64
    ensures { mirror result ≡ big word }
{
    u64::from_le_bytes(word)
}

// The 128 bytes of a turn, as words.
fn block(bytes: &[u8; 128]) -> Window
    ensures { mirrors result ≡ chunks bytes.now 0 0 16 }
{
    let (words, _) = bytes.as_chunks::<8>();
    let mut w = [0; 16];
    for i in 0..16 {
        w[i] = number_of(words[i]);
    }
    w
}

// The words as one.
fn last(w: Window) -> u64
    ensures { result ≡ horner 0 (mirrors w) }
{
    let mut t = 0;
    for word in w {
        t = word_behind(t, word.swap_bytes());
    }
    t
}

// The word 15 of a window that stands for a register with all its bits set, the other words zero.
const ALL_ONES: u64 = 14953076662776889344;

// Short strings take no turn.
const LEAST: usize = 256;

// The check word of a message.
pub fn check_by_turn(message: &[u8]) -> u16
    ensures { result ≡ check_word message.now }
{
    if message.len() < LEAST {
        return check_by_eight(message);
    }
    let mut w = [0, 0, 0, 0, 0, 0, 0, 0, 0, 0, 0, 0, 0, 0, 0, ALL_ONES];
    let (turns, rest) = message.as_chunks::<128>();
    // What a call returns goes to a name of its own first: Rattle lays no array of a call in a variable that is there already.
    for bytes in turns {
        let next = turn(w, block(bytes));
        w = next;
    }
    let (fours, rest) = rest.as_chunks::<32>();
    for bytes in fours {
        let (d, _) = bytes.as_chunks::<8>();
        let words = [
            number_of(d[0]),
            number_of(d[1]),
            number_of(d[2]),
            number_of(d[3]),
        ];
        let next = turn4(w, words);
        w = next;
    }
    check_from(last(w), rest)
}
