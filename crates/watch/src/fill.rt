// Which blocks of a scan were fill. A set of blocks is a number whose bit b stands for block b.
ghost use Rattle.std.specs.Prelude.{◌≡◌, ◌^◌, ◌≤◌, ◌<◌};
ghost use Rattle.std.specs.Int.Count.{ones};
ghost use Rattle.watch.specs.Fills.{is_fill, filled};

// The data valid word of data that are valid.
const VALID: u8 = 1;

fn is_fill(valid: u8) -> bool
    ensures { result ≡ is_fill valid }
{
    valid != VALID
}

// The set with one block more, above all that are in it, where its word says fill.
pub(crate) fn filled(set: u32, block: u8, valid: u8) -> u32
    requires { (set < 2 ^ block) × (block ≤ 10) }
    ensures { result ≡ filled set block valid }
{
    if is_fill(valid) {
        return set + (1 << block);
    }
    set
}

pub(crate) fn count(set: u32) -> u32
    ensures { result ≡ ones set }
{
    u32::count_ones(set)
}
