// The check word, eight bytes a step and with no table: a word of 64 bits stands for the register, since the generator divides
// x^64 + x^48 + x^20 + 1.
#![tactic(auto)]

ghost use Rattle.std.specs.Prelude.{◌≡◌};
ghost use Rattle.bits.specs.Bits.{bits};
ghost use Rattle.check_rule.specs.Check.{feed, check_word, generator};
ghost use Rattle.check_eight.specs.Eight.{folded, finished, joined, check_from};

// `s` with 64 zero bits behind it.
fn fold(s: u64) -> u64
    ensures { result ≡ folded s }
{
    let u = s ^ (s >> 16);
    let x = (u ^ (u >> 32)) ^ (s >> 44);
    x ^ ((x << 20) ^ (x << 48))
}

// The register that `s` stands for.
fn finish(s: u64) -> u16
    ensures { result ≡ finished s }
{
    let a = s ^ ((s >> 4) ^ ((s >> 11) ^ (s >> 16)));
    let b = a ^ ((a >> 8) ^ ((a >> 22) ^ (a >> 32)));
    let c = b ^ ((b >> 16) ^ (b >> 44));
    let d = c ^ (c >> 32);
    ((d ^ ((d << 5) ^ (d << 12))) % 65536) as u16
}

// The register after one byte more.
fn next(r: u16, b: u8) -> u16
    ensures { result ≡ feed generator r (bits 8 b) }
{
    let k = (r >> 8) ^ (b as u16);
    let y = k ^ (k >> 4);
    (r << 8) ^ ((y << 12) ^ ((y << 5) ^ y))
}

// The word that stands for the register after eight bytes more, where `t` stands for it and `w` is these bytes.
pub fn word_behind(t: u64, w: u64) -> u64
    ensures { result ≡ joined t w }
{
    fold(t) ^ w
}

// The check word of a message of which `rest` is left, where `t` stands for the register so far.
pub fn check_from(t: u64, rest: &[u8]) -> u16
    ensures { result ≡ check_from t rest.now }
{
    let (eights, tail) = rest.as_chunks::<8>();
    let mut w = t;
    for eight in eights {
        w = word_behind(w, u64::from_be_bytes(*eight));
    }
    let mut r = finish(w);
    for byte in tail {
        r = next(r, *byte);
    }
    r ^ 0xFFFF
}

// The word that stands for a register with all its bits set.
const ALL_ONES: u64 = 33999;

// The check word of a message.
pub fn check_by_eight(message: &[u8]) -> u16
    ensures { result ≡ check_word message.now }
{
    check_from(ALL_ONES, message)
}
