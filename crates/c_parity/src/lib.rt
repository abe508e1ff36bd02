// Longitudinal parity, from C: a mark for each section of a layout.
#![tactic(auto)]

ghost use Rattle.std.specs.Prelude.{◌≡◌, [], ◌∷◌};
ghost use Rattle.parity.specs.declared.Layout.TheVariants.{ImagerSpacelook, SounderSpacelook};
ghost use Rattle.parity.specs.Sections.{sections_of};
ghost use Rattle.c_parity.specs.Verdicts.{marks_at};

use c_numbers::marked;
use parity::Layout;

#[unsafe(no_mangle)]
pub extern "C" fn rahmisve_parity_imager(words: &[u16], holds: &mut [u8; 4]) -> u8
    ensures value { result ≡ (sections_of ImagerSpacelook words.now).number }
    ensures holds_after { holds.new ≡ marks_at (0 ∷ 1 ∷ 2 ∷ 3 ∷ []) (sections_of ImagerSpacelook words.now).holds }
{
    match parity::check_sections(Layout::ImagerSpacelook, words) {
        Ok(judged) => {
            *holds = [
                marked(judged.holds[0]),
                marked(judged.holds[1]),
                marked(judged.holds[2]),
                marked(judged.holds[3]),
            ];
            ground::ACCEPTED
        }
        Err(refusal) => {
            *holds = [0, 0, 0, 0];
            refusal.number()
        }
    }
}

#[unsafe(no_mangle)]
pub extern "C" fn rahmisve_parity_sounder(words: &[u16], holds: &mut [u8; 2]) -> u8
    ensures value { result ≡ (sections_of SounderSpacelook words.now).number }
    ensures holds_after { holds.new ≡ marks_at (0 ∷ 1 ∷ []) (sections_of SounderSpacelook words.now).holds }
{
    match parity::check_sections(Layout::SounderSpacelook, words) {
        Ok(judged) => {
            *holds = [marked(judged.holds[0]), marked(judged.holds[1])];
            ground::ACCEPTED
        }
        Err(refusal) => {
            *holds = [0, 0];
            refusal.number()
        }
    }
}
