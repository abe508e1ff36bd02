// A mark for each parity section: c_parity.
ghost use Rattle.std.specs.Prelude.{◌≡◌, [], ◌∷◌};
ghost use Rattle.parity.specs.declared.Layout.TheVariants.{ImagerSpacelook, SounderSpacelook};
ghost use Rattle.parity.specs.Sections.{sections_of};
ghost use Rattle.c_parity.specs.Verdicts.{marks_at};

#[unsafe(no_mangle)]
pub extern "C" fn rahmisve_parity_imager(words: &[u16], holds: &mut [u8; 4]) -> u8
    ensures value { result ≡ (sections_of ImagerSpacelook words.now).number }
    ensures holds_after { holds.new ≡ marks_at (0 ∷ 1 ∷ 2 ∷ 3 ∷ []) (sections_of ImagerSpacelook words.now).holds }
{
    c_parity::rahmisve_parity_imager(words, holds)
}

#[unsafe(no_mangle)]
pub extern "C" fn rahmisve_parity_sounder(words: &[u16], holds: &mut [u8; 2]) -> u8
    ensures value { result ≡ (sections_of SounderSpacelook words.now).number }
    ensures holds_after { holds.new ≡ marks_at (0 ∷ 1 ∷ []) (sections_of SounderSpacelook words.now).holds }
{
    c_parity::rahmisve_parity_sounder(words, holds)
}
