// Words of a Sounder documentation block, which is 8,040 of them, each of eight bits: as bytes, and two as a number.
ghost use Rattle.std.specs.Prelude.{◌≡◌, ◌≤◌, ◌<◌, length, map};
ghost use Rattle.parity.specs.Words.{ground_of};
ghost use Rattle.tag.specs.Tags.{read_by, told_tag};
ghost use Rattle.sounder.specs.Words.{Small, number_at, status_in, tag_words, tags_of};

use ground::Refusal;
use std::array;
use tag::Tag;

// Where the detector status begins and ends, and where the time tags begin, counted from 0.
const STATUS: usize = 32;

const STATUS_END: usize = 42;

const TAGS: usize = 58;

const TAG_WORDS: usize = 8;

// A block whose words are as many as they must be, and none above 255.
#[derive(Clone, Copy)]
pub(crate) struct Block<'a> {
    pub(crate) words: &'a [u16],
    ghost plain: { ground_of words.now ≡ 0 },
}

// So many words as bytes.
fn lowered<const N: usize>(words: &[u16]) -> [u8; N]
    requires { (length words.now ≡ N) × Small words.now }
    ensures { result ≡ words.now }
{
    array::from_fn(|i| (words[i] % 256) as u8)
}

impl<'a> Block<'a> {
    // The number of words k and k + 1, counted from 1, the high one first.
    pub(crate) fn number_at(self, k: usize) -> u16
        requires { (1 ≤ k) × (k < 8040) }
        ensures { result ≡ number_at k self.entry.words.now }
    {
        self.words[k - 1] % 256 * 256 + self.words[k] % 256
    }

    // The detector status, words 33 to 42.
    pub(crate) fn status(self) -> [u8; 10]
        ensures { result ≡ status_in self.entry.words.now }
    {
        lowered(&self.words[STATUS..STATUS_END])
    }

    // Tag k of fifteen, counted from 0, by a list that was tested.
    fn tag_at(self, leaps: &[u32], k: usize) -> Result<Tag, Refusal>
        requires { k < 15 }
        ensures { told_tag result ≡ read_by leaps.now (tag_words k self.entry.words.now) }
    {
        let from = TAGS + TAG_WORDS * k;
        tag::read_by(
            &lowered::<TAG_WORDS>(&self.words[from..from + TAG_WORDS]),
            leaps,
        )
    }

    // The fifteen tags, each by itself: TSCURR, TSCLS, TSCLE, TCSLS, TCSLE, TSPFS, TSNFS, TSSPC, TSECL, TSBBC, TSSTR, TLRAN, TSVIT, TSCLMT
    // and TSONA.
    pub(crate) fn tags(self, leaps: &[u32]) -> [Result<Tag, Refusal>; 15]
        ensures { map told_tag result ≡ tags_of leaps.now self.entry.words.now }
    {
        array::from_fn(|k| self.tag_at(leaps, k))
    }
}
