// The Sounder's status, from C: thirteen numbers of a block, a row of eight for each of its tags, and whether one detector is suspect.
#![tactic(auto)]

ghost use Rattle.std.specs.Prelude.{◌≡◌, map, Ok};
ghost use Rattle.tag.specs.Tags.{told_tag};
ghost use Rattle.detectors.specs.Status.{channel_of, detector_of};
ghost use Rattle.sounder.specs.Judging.{told_status, status_of, asked_of};
ghost use Rattle.c_numbers.specs.Marks.{mark};
ghost use Rattle.c_sounder.specs.Rows.{numbers_of, row_of};

use c_numbers::marked;
use detectors::Detector;
use ground::Refusal;
use sounder::Status;
use tag::Tag;

const TAGS: usize = 15;

// The tags of a block that is refused.
const NO_TAGS: &[Result<Tag, Refusal>; TAGS] = &[Ok(Tag {
    year: 0,
    day: 0,
    hour: 0,
    minute: 0,
    second: 0,
    ms: 0,
    flywheel: false,
}); TAGS];

fn channel_of(first: Option<Detector>) -> u32
    ensures { result ≡ channel_of first }
{
    first.map_or(0, |detector| detector.channel)
}

fn detector_of(first: Option<Detector>) -> u32
    ensures { result ≡ detector_of first }
{
    first.map_or(0, |detector| detector.number)
}

fn numbers_of(status: Status) -> [u32; 13]
    ensures { result ≡ numbers_of (told_status (Ok status)) }
{
    let frame = status.frame;
    [
        0,
        status.suspects,
        channel_of(status.first),
        detector_of(status.first),
        status.raw as u32,
        status.blocks as u32,
        frame[0] as u32,
        frame[1] as u32,
        frame[2] as u32,
        frame[3] as u32,
        frame[4] as u32,
        frame[5] as u32,
        frame[6] as u32,
    ]
}

// A tag's answer, and the seven numbers of its time.
fn row_of(read: Result<Tag, Refusal>) -> [u32; 8]
    ensures { result ≡ row_of (told_tag read) }
{
    let (answer, tag) = match read {
        Ok(tag) => (ground::ACCEPTED, tag),
        Err(refusal) => (refusal.number(), tag::zero_tag()),
    };
    let time = c_tags::numbers_of(tag);
    [
        answer as u32,
        time[0],
        time[1],
        time[2],
        time[3],
        time[4],
        time[5],
        time[6],
    ]
}

// Row by row to the place that C lends, and in a function of its own: where so many bytes are a local, or are known to be zeros, the
// compiler calls `memset`.
#[inline(never)]
fn rows_of(tags: &[Result<Tag, Refusal>; 15], rows: &mut [[u32; 8]; 15])
    ensures { rows.new ≡ map (λ read. row_of (told_tag read)) tags.now }
{
    for (i, read) in tags.iter().enumerate() {
        rows[i] = row_of(*read);
    }
}

#[unsafe(no_mangle)]
pub extern "C" fn rahmisve_sounder_status(
    words: &[u16],
    leap_days: &[u32],
    status: &mut [u32; 13],
    tags: &mut [[u32; 8]; 15],
) -> u8
    ensures value { result ≡ (status_of leap_days.now words.now).number }
    ensures status_after { status.new ≡ numbers_of (status_of leap_days.now words.now) }
    ensures tags_after { tags.new ≡ map row_of (status_of leap_days.now words.now).tags }
{
    match sounder::judge(words, leap_days) {
        Ok(judged) => {
            *status = numbers_of(judged);
            rows_of(&judged.tags, tags);
            ground::ACCEPTED
        }
        Err(fault) => {
            *status = [fault.word as u32, 0, 0, 0, 0, 0, 0, 0, 0, 0, 0, 0, 0];
            rows_of(NO_TAGS, tags);
            fault.why.number()
        }
    }
}

#[unsafe(no_mangle)]
pub extern "C" fn rahmisve_sounder_suspect(
    words: &[u16],
    leap_days: &[u32],
    channel: u32,
    detector: u32,
    word: &mut u32,
    suspect: &mut u8,
) -> u8
    ensures value { result ≡ (asked_of leap_days.now words.now channel detector).number }
    ensures word_after { word.new ≡ (asked_of leap_days.now words.now channel detector).word }
    ensures suspect_after { suspect.new ≡ mark (asked_of leap_days.now words.now channel detector).suspect }
{
    let (answer, named, found) = match sounder::ask(words, leap_days, channel, detector) {
        Ok(found) => (ground::ACCEPTED, 0, found),
        Err(fault) => (fault.why.number(), fault.word, false),
    };
    *word = named as u32;
    *suspect = marked(found);
    answer
}
