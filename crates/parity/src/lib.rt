// Longitudinal parity (504-02 section 3.5.2): the exclusive or of a section's words, kept in a word behind the section. A block that
// its check word finds damaged can so be judged section by section.
#![tactic(auto)]

ghost use Rattle.std.specs.Prelude.{◌≡◌, length, Ok};
ghost use Rattle.ground.specs.Refusals.{number_in};
ghost use Rattle.parity.specs.Words.{block_words, any_large, ground_of};
ghost use Rattle.parity.specs.Sections.{xor_of, sections_in, holds_in, LiesIn, verdicts_on, judged_as, sections_of, told};

use ground::Refusal;

// The published layouts whose sections are checked.
#[derive(Clone, Copy, Debug, PartialEq, Eq)]
pub enum Layout {
    // Block 1 of the Imager spacelook set, Table 3-22.
    ImagerSpacelook,
    // Block 1 of the Sounder spacelook set, Table 3-26 of the 2011 revision.
    SounderSpacelook,
}

impl Layout {
    fn sections(self) -> &'static [Section]
        ensures { result.now ≡ sections_in self }
    {
        match self {
            Layout::ImagerSpacelook => IMAGER,
            Layout::SounderSpacelook => SOUNDER,
        }
    }
}

// A verdict for each section of a layout: true where its parity holds. A layout of fewer than four sections leaves the last ones
// false, and `count` says how many it has.
#[derive(Clone, Copy, Debug, PartialEq, Eq)]
pub struct Sections {
    pub count: u8,
    pub holds: [bool; 4],
}

// First word, last word and parity word, counted from 1.
#[derive(Clone, Copy)]
struct Section(usize, usize, usize);

const BLOCK_WORDS: usize = 8040;

const LARGEST_WORD: u16 = 255;

// The Imager layout's sections. Words 7903 to 7905 are in none.
const IMAGER: &[Section] = &[
    Section(1, 221, 222),
    Section(223, 701, 702),
    Section(703, 1181, 1182),
    Section(1183, 7902, 7906),
];

const SOUNDER: &[Section] = &[Section(1, 221, 222), Section(223, 2926, 2927)];

// The parity word of a section's words, of any size.
pub fn parity_of(words: &[u16]) -> u16
    ensures { result ≡ xor_of words.now }
{
    words.iter().fold(0, |parity, word| parity ^ *word)
}

// No way out before the end: so the loop runs on many words at a time.
fn any_large(words: &[u16]) -> bool
    ensures { result ≡ any_large words.now }
{
    words
        .iter()
        .fold(false, |large, word| large | (LARGEST_WORD < *word))
}

// What a block of eight-bit words is refused for before it is read: that it has not 8,040 words, or a word above 255 anywhere in it.
pub fn ground_of(words: &[u16]) -> Result<(), Refusal>
    ensures { number_in result ≡ ground_of words.now }
{
    if words.len() != BLOCK_WORDS {
        return Err(Refusal::WrongLength);
    }
    if any_large(words) {
        return Err(Refusal::LargeWord);
    }
    Ok(())
}

fn section_holds(words: &[u16], section: Section) -> bool
    requires { LiesIn section (length words.now) }
    ensures { result ≡ holds_in section words.now }
{
    let Section(first, last, parity) = section;
    parity_of(&words[first - 1..last]) == words[parity - 1]
}

fn judge(layout: Layout, words: &[u16]) -> Sections
    requires { length words.now ≡ block_words }
    ensures { told (Ok result) ≡ judged_as (length (sections_in layout)) (verdicts_on layout words.now) }
{
    let sections = layout.sections();
    let mut holds = [false; 4];
    for (i, section) in sections.iter().enumerate() {
        holds[i] = section_holds(words, *section);
    }
    Sections {
        count: sections.len() as u8,
        holds,
    }
}

// The verdicts of a layout's sections on a block that `ground_of` accepts.
pub fn check_sections(layout: Layout, words: &[u16]) -> Result<Sections, Refusal>
    ensures { told result ≡ sections_of layout words.now }
{
    ground_of(words)?;
    Ok(judge(layout, words))
}
