// The report: an entry for each block and each span, three numbers each.
ghost use Rattle.std.specs.Prelude.{◌≡◌, [], ◌∷◌, ◌+◌, ◌*◌, ◌<◌, ◌≤◌, length};
ghost use Rattle.room.specs.Laid.{laid};
ghost use Rattle.copies.specs.Copies.{copies_length};
ghost use Rattle.salvaging.specs.Pieces.{gap, span_entry, differs, changed_by};

use crate::{ENTRY_NUMBERS, SPAN, copy_at};

// An entry behind so many; how many there are then.
pub(crate) fn put(
    report: &mut [usize],
    entries: usize,
    start: usize,
    bytes: usize,
    found: usize,
) -> usize
    requires { entries * 3 + 3 ≤ length report.old }
    ensures value { result ≡ entries + 1 }
    ensures report_after { report.new ≡ laid report.old (entries * 3) (start ∷ bytes ∷ found ∷ []) }
{
    let at = entries * ENTRY_NUMBERS;
    report[at] = start;
    report[at + 1] = bytes;
    report[at + 2] = found;
    entries + 1
}

// The entry of the span from `from` to `to`, if it is not empty.
pub(crate) fn put_span(report: &mut [usize], entries: usize, from: usize, to: usize) -> usize
    requires { entries * 3 + 3 ≤ length report.old }
    ensures value { result ≡ entries + length (gap from to) }
    ensures report_after { report.new ≡ laid report.old (entries * 3) (span_entry from to) }
{
    if from < to {
        return put(report, entries, from, to - from, SPAN);
    }
    entries
}

// 1 where a copy's bytes are not those of the copy that is used, else 0.
fn differs(rest: &[u8], one: usize, copy: usize) -> usize
    requires { (one < 3) × (copy < 3) × (copies_length ≤ length rest.now) }
    ensures value { result ≡ differs one copy rest.now }
    ensures upper_bound { result ≤ 1 }
{
    if copy_at(rest, one) == copy_at(rest, copy) {
        return 0;
    }
    1
}

// The copies whose bytes change where one is put in all three places.
pub(crate) fn changed(rest: &[u8], copy: usize) -> usize
    requires { (copy < 3) × (copies_length ≤ length rest.now) }
    ensures { result ≡ changed_by copy rest.now }
{
    differs(rest, 0, copy) + differs(rest, 1, copy) * 2 + differs(rest, 2, copy) * 4
}
