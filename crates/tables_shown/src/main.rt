// The two tables run: the worked examples of 504-02 section 3.5.2, every placement, and the verdicts on whole blocks. What is
// printed is compared with the file stdout.
#![tactic(auto)]

ghost use Rattle.std.specs.Prelude.{IsTrue};

use parity::Layout;

// What is so is known before it runs.
fn expect(holds: bool)
    requires { IsTrue holds }
{
    prove!(holds);
}

// A segment of four eight-bit words, and one of five ten-bit words.
fn worked_examples() {
    let four: [u16; 4] = [0b00001010, 0b00100110, 0b00001111, 0b00011111];
    expect(parity::parity_of(&four) == 0b00111100);
    let five: [u16; 5] = [
        0b1000001101,
        0b1100000010,
        0b1110001000,
        0b1111001100,
        0b1111101110,
    ];
    expect(parity::parity_of(&five) == 0b1010100101);
}

fn placed(rt: &HostRuntime, block: u8, version: u8, record: u8) {
    let (answer, channel, detector) = match placement::place(block, version, record) {
        Ok(placed) => (ground::ACCEPTED, placed.channel, placed.detector),
        Err(refusal) => (refusal.number(), 0, 0),
    };
    let _ = print!(rt; "  {answer} {channel}/{detector}");
}

fn end(rt: &HostRuntime) {
    let _ = print!(rt; "\n");
}

// A block and a version, then for each record from 0 to 5 the number, the channel and the detector.
fn records(rt: &HostRuntime, block: u8, version: u8) {
    let _ = print!(rt; "{block} {version}");
    for record in 0..=5 {
        placed(rt, block, version, record);
    }
    end(rt);
}

// A block in versions 0 to 4.
fn versions(rt: &HostRuntime, block: u8) {
    for version in 0..=4 {
        records(rt, block, version);
    }
}

fn placements(rt: &HostRuntime) {
    for block in 0..=12 {
        versions(rt, block);
    }
}

fn verdicts(rt: &HostRuntime, layout: Layout, words: &[u16]) {
    let (answer, count, holds) = match parity::check_sections(layout, words) {
        Ok(sections) => {
            let holds = sections.holds;
            (ground::ACCEPTED, sections.count, holds)
        }
        Err(refusal) => (refusal.number(), 0, [false; 4]),
    };
    let _ = print!(rt; "{answer} {count}");
    for &verdict in &holds {
        let mark = verdict as u8;
        let _ = print!(rt; " {mark}");
    }
    end(rt);
}

fn both(rt: &HostRuntime, words: &[u16]) {
    verdicts(rt, Layout::ImagerSpacelook, words);
    verdicts(rt, Layout::SounderSpacelook, words);
}

// From a block of zeros, word by word: 7902 breaks the fourth Imager section, 7906 mends it, 7903 to 7905 change nothing, 222 breaks
// the first section of both layouts, 221 mends it, 2927 breaks the Sounder's second and the Imager's fourth.
fn blocks(rt: &HostRuntime) {
    let mut words = [0u16; 8041];
    both(rt, &words[..8040]);
    words[7901] = 1;
    both(rt, &words[..8040]);
    words[7905] = 1;
    both(rt, &words[..8040]);
    words[7902] = 7;
    words[7903] = 8;
    words[7904] = 16;
    both(rt, &words[..8040]);
    words[221] = 128;
    both(rt, &words[..8040]);
    words[220] = 128;
    both(rt, &words[..8040]);
    words[2926] = 255;
    both(rt, &words[..8040]);
    words[8039] = 256;
    both(rt, &words[..8040]);
    both(rt, &words[..8039]);
    both(rt, &words);
}

fn main(rt: HostRuntime) {
    worked_examples();
    placements(&rt);
    blocks(&rt);
}
