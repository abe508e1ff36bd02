// Why an input is refused, and the number of each refusal. What is a ground, and which of several decides, is in specs/Grounds.antt; which
// number a refusal has, in specs/Refusals.antt.
#![tactic(auto)]

ghost use Rattle.std.specs.Prelude.{◌≡◌};
ghost use Rattle.ground.specs.Refusals.{number_of};

// The number that is told where nothing is refused.
pub const ACCEPTED: u8 = 0;

// In the order of their numbers, which begin at 1.
#[derive(Clone, Copy, Debug, PartialEq, Eq)]
pub enum Refusal {
    // A block shorter than 90 bytes, or a lent header that has not 28 bytes.
    NoHeader = 1,
    NoCopyPasses = 2,
    CopiesDiffer = 3,
    // A block id that is none of the known ones, or a block number over 11.
    UnknownBlock = 4,
    UnknownVersion = 5,
    WrongSize = 6,
    WrongCount = 7,
    // More or fewer bytes than the block must have, or words than there must be.
    WrongLength = 8,
    SmallRoom = 9,
    CheckDisagrees = 10,
    FillNotZero = 11,
    BadTag = 12,
    // A block without records, a record that it has not, an open watch that expects no block from 1 to 10, or a detector that there is not.
    NoRecord = 13,
    LargeWord = 14,
    OtherField = 15,
    LongLimit = 16,
    OffBoundary = 17,
    // No start of an input has an acceptable block.
    NoBlock = 18,
    // A list of leap days that is too long, does not rise strictly or has a day that no year has.
    BadLeapDays = 19,
    // A watch with a set of fill blocks that has the expected block or a later one, or that is not empty while idle.
    BadFill = 20,
    // A bit that is 1 behind those of the Sounder's detectors.
    SpareBit = 21,
    // A frame field of a Sounder documentation block that is out of its range.
    OutOfRange = 22,
}

impl Refusal {
    pub fn number(self) -> u8
        ensures { result ≡ number_of self }
    {
        self as u8
    }
}
