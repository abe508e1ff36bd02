// Salvage, from C: blocks found among junk, as a recording and a report.
#![tactic(auto)]

ghost use Rattle.std.specs.Prelude.{◌≡◌, length};
ghost use Rattle.salvaging.specs.Answers.{salvaged_of, recording_after, report_after, scratch_after};

#[unsafe(no_mangle)]
pub extern "C" fn rahmisve_salvage(
    input: &[u8],
    recording: &mut [u8],
    report: &mut [usize],
    scratch: &mut [u16],
    bytes: &mut usize,
    entries: &mut usize,
    blocks: &mut usize,
) -> u8
    ensures blocks_after { record { number = result; bytes = bytes.new; entries = entries.new; blocks = blocks.new } ≡ salvaged_of input.now (length recording.old) (length report.old) (length scratch.old) }
    ensures recording_after { recording.new ≡ recording_after input.now recording.old (length report.old) (length scratch.old) }
    ensures report_after { report.new ≡ report_after input.now (length recording.old) report.old (length scratch.old) }
    ensures scratch_after { scratch.new ≡ scratch_after input.now (length recording.old) (length report.old) scratch.old }
{
    match salvaging::salvage(input, recording, report, scratch) {
        Ok(salvaged) => {
            *bytes = salvaged.bytes;
            *entries = salvaged.entries;
            *blocks = salvaged.blocks;
            ground::ACCEPTED
        }
        Err(refusal) => {
            *bytes = 0;
            *entries = 0;
            *blocks = 0;
            refusal.number()
        }
    }
}
