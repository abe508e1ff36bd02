// Numbers and marks between C's types and the library's, for the parts of the C interface: the crates c_.., whose manual is
// include/rahmisve.h. Numbers and slices go in, numbers come out. Each of their functions answers what the library's own does, on every
// input. The number of the answer is returned; what else belongs to it goes to places that the caller lends for it. The version of that
// interface is here too.
#![tactic(auto)]

ghost use Rattle.std.specs.Prelude.{◌≡◌, not, eqb};
ghost use Rattle.c_numbers.specs.Numbers.{up_to};
ghost use Rattle.c_numbers.specs.Marks.{mark};
ghost use Rattle.c_numbers.specs.Version.{version};

// The number, or 255 where it is more.
pub fn in_byte(n: u32) -> u8
    ensures { result ≡ up_to 255 n }
{
    u8::try_from(n).unwrap_or(u8::MAX)
}

// The number, or 65,535 where it is more.
pub fn in_pair(n: u32) -> u16
    ensures { result ≡ up_to 65535 n }
{
    u16::try_from(n).unwrap_or(u16::MAX)
}

// A mark that C gives.
pub fn is_on(n: u32) -> bool
    ensures { result ≡ not (eqb n 0) }
{
    n != 0
}

// A mark as C is given it.
pub fn marked(holds: bool) -> u8
    ensures { result ≡ mark holds }
{
    u8::from(holds)
}

const VERSION: u32 = 6;

// The version of the C interface, by which a program knows that its header is of the same.
#[unsafe(no_mangle)]
pub extern "C" fn rahmisve_version() -> u32
    ensures { result ≡ version }
{
    VERSION
}
