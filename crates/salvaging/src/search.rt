// The search for the next block.
ghost use Rattle.std.specs.Prelude.{◌≡◌, ◌≤◌, length};
ghost use Rattle.row.specs.Promises.{most_words};
ghost use Rattle.salvaging.specs.Pieces.{Finds, scratch_found};

use copies::COPIES;

// A start with an acceptable block, the first copy that makes it, from 0, and the block's bytes.
#[derive(Clone, Copy)]
pub(crate) struct Hit {
    pub(crate) start: usize,
    pub(crate) copy: usize,
    pub(crate) bytes: usize,
}

// The lowest start from `from` on that has an acceptable block, where one has.
pub(crate) fn find(input: &[u8], from: usize, scratch: &mut [u16]) -> Option<Hit>
    requires from_in_bounds { from ≤ length input.now }
    requires most_words_in_bounds { most_words ≤ length scratch.old }
    ensures found { Finds input.now from result }
    ensures scratch_after { scratch.new ≡ scratch_found input.now from scratch.old }
{
    let mut hit = None;
    'starts: for start in from..input.len() {
        for copy in 0..COPIES {
            if let Some(bytes) = made::bytes_by(&input[start..], copy, scratch) {
                hit = Some(Hit { start, copy, bytes });
                break 'starts;
            }
        }
    }
    hit
}
