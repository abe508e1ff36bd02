// The seven frame fields of a Sounder documentation block and the ranges that 504-02 Table 3-10 prints for them.
ghost use Rattle.std.specs.Prelude.{◌≡◌, ◌<◌, unwrap_or, IfSome, slice_index_or};
ghost use Rattle.sounder.specs.Frame.{frame_of, outside, is_out, first_out};

use crate::words::Block;
use std::array;

// First word, counted from 1, and the least and the most that may stand in the field.
#[derive(Clone, Copy)]
struct Range(u16, u16, u16);

// Which of them are the frame's westernmost and easternmost pixel.
const WEST: usize = 3;

const EAST: usize = 4;

const RANGES: [Range; 7] = [
    Range(181, 1, 396), // RSSCT
    Range(183, 1, 396), // ASSCT
    Range(185, 1, 1579), // SNSLN
    Range(187, 1, 1754), // SWFPX
    Range(189, 5, 1758), // SEFPX
    Range(191, 1, 1579), // SNFLN
    Range(193, 4, 1582), // SSFLN
];

// The field of a range, which is counted from 0.
fn field_at(block: Block<'_>, i: usize) -> u16
    requires { i < 7 }
    ensures { result ≡ slice_index_or (frame_of block.entry.words.now) i 0 }
{
    let ranges = RANGES;
    block.number_at(ranges[i].0 as usize)
}

// The fields in their order, whatever stands in them.
pub(crate) fn frame_of(block: Block<'_>) -> [u16; 7]
    ensures { result ≡ frame_of block.entry.words.now }
{
    array::from_fn(|i| field_at(block, i))
}

fn is_outside(range: Range, n: u16) -> bool
    ensures { result ≡ outside range n }
{
    let Range(_, least, most) = range;
    (n < least) | (most < n)
}

// A west above its east counts as the eastern field out of range.
fn is_out(range: Range, frame: [u16; 7], i: usize) -> bool
    requires { i < 7 }
    ensures { result ≡ is_out range frame i }
{
    let crossed = (i == EAST) & (frame[EAST] < frame[WEST]);
    is_outside(range, frame[i]) | crossed
}

// The first word of the lowest field that is out of range, where one is.
pub(crate) fn first_out(frame: [u16; 7]) -> Option<u16>
    ensures { (unwrap_or result 0 ≡ first_out frame) × IfSome result (λ word. 0 < word) }
{
    let ranges = RANGES;
    for (i, range) in ranges.iter().enumerate() {
        if is_out(*range, frame, i) {
            return Some(range.0);
        }
    }
    None
}
