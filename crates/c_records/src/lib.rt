// Detector records, from C: where one lies in the decoded words, and which channel and detector it holds.
#![tactic(auto)]

ghost use Rattle.std.specs.Prelude.{◌≡◌};
ghost use Rattle.records.specs.Records.{part_of};
ghost use Rattle.placement.specs.Placement.{place_of};
ghost use Rattle.c_numbers.specs.Numbers.{up_to};

use c_numbers::in_byte;

#[unsafe(no_mangle)]
pub extern "C" fn rahmisve_record(
    header: &[u8],
    word_count: usize,
    record: u32,
    start: &mut usize,
    length: &mut usize,
) -> u8
    ensures { record { number = result; start = start.new; length = length.new } ≡ part_of header.now (up_to 255 «record») word_count }
{
    match records::locate(header, word_count, in_byte(record)) {
        Ok(part) => {
            *start = part.start;
            *length = part.length;
            ground::ACCEPTED
        }
        Err(refusal) => {
            *start = 0;
            *length = 0;
            refusal.number()
        }
    }
}

#[unsafe(no_mangle)]
pub extern "C" fn rahmisve_place(
    block: u32,
    version: u32,
    record: u32,
    channel: &mut u8,
    detector: &mut u8,
) -> u8
    ensures { record { number = result; channel = channel.new; detector = detector.new } ≡ place_of (up_to 255 block) (up_to 255 version) (up_to 255 «record») }
{
    match placement::place(in_byte(block), in_byte(version), in_byte(record)) {
        Ok(placed) => {
            *channel = placed.channel;
            *detector = placed.detector;
            ground::ACCEPTED
        }
        Err(refusal) => {
            *channel = 0;
            *detector = 0;
            refusal.number()
        }
    }
}
