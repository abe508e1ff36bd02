// The channel and the detector of a record of blocks 1 to 10: the placement by version of 504-02 section 3.2.1, two
// tables of constants and a lookup in each. What is right is in specs/Placement.antt, how an entry is read in specs/Table.antt.
#![tactic(auto)]

ghost use Rattle.std.specs.Prelude.{◌≡◌, ◌<◌, ◌≤◌};
ghost use Rattle.row.specs.Rows.{last_version};
ghost use Rattle.placement.specs.Placement.{group_of, place_of, told};
ghost use Rattle.placement.specs.Table.{named_by};

use ground::Refusal;

// What a record holds.
#[derive(Clone, Copy, Debug, PartialEq, Eq)]
pub struct Placed {
    pub channel: u8,
    pub detector: u8,
}

// Channel and detector. 0 and 0: the block has no such record; rows as long as what they hold would be pointers, and the archive has no data.
#[derive(Clone, Copy)]
struct Held(u8, u8);

const FIRST_INFRARED: u8 = 1;

const FIRST_VISIBLE: u8 = 3;

// Records that the table has room for in an infrared block.
const MOST_RECORDS: u8 = 4;

// Blocks 1 and 2 by version group. Version 3 has the eighth infrared detector, 6/2.
const HELD: [[[Held; 4]; 2]; 3] = [
    // Versions 0, 1.
    [
        [Held(4, 1), Held(4, 2), Held(5, 1), Held(5, 2)],
        [Held(2, 1), Held(2, 2), Held(3, 1), Held(0, 0)],
    ],
    // Version 2.
    [
        [Held(2, 1), Held(2, 2), Held(3, 1), Held(3, 2)],
        [Held(4, 1), Held(4, 2), Held(6, 1), Held(0, 0)],
    ],
    // Version 3.
    [
        [Held(2, 1), Held(2, 2), Held(3, 1), Held(3, 2)],
        [Held(4, 1), Held(4, 2), Held(6, 1), Held(6, 2)],
    ],
];

// Blocks 3 to 10, a record each, in every version.
const VISIBLE: [Held; 8] = [
    Held(1, 5),
    Held(1, 6),
    Held(1, 7),
    Held(1, 8),
    Held(1, 1),
    Held(1, 2),
    Held(1, 3),
    Held(1, 4),
];

// What an entry of a table says.
fn named(held: Held) -> Result<Placed, Refusal>
    ensures { told result ≡ named_by held }
{
    if held.0 == 0 {
        return Err(Refusal::NoRecord);
    }
    Ok(Placed {
        channel: held.0,
        detector: held.1,
    })
}

fn group_of(version: u8) -> usize
    ensures { (result ≡ group_of version) × (result < 3) }
{
    match version {
        0 | 1 => 0,
        2 => 1,
        _ => 2,
    }
}

// The records of blocks 1 and 2.
fn infrared(block: u8, version: u8, record: u8) -> Result<Placed, Refusal>
    requires { (1 ≤ block) × ((block ≤ 2) × (version ≤ last_version)) }
    ensures { told result ≡ place_of block version «record» }
{
    if record < 1 {
        return Err(Refusal::NoRecord);
    }
    if MOST_RECORDS < record {
        return Err(Refusal::NoRecord);
    }
    let group = group_of(version);
    let b = (block - FIRST_INFRARED) as usize;
    let k = (record - 1) as usize;
    let table = HELD;
    named(table[group][b][k])
}

// The one record of each of blocks 3 to 10, where the version does not enter.
fn visible(block: u8, record: u8) -> Result<Placed, Refusal>
    requires { (3 ≤ block) × (block ≤ 10) }
    ensures { told result ≡ place_of block 0 «record» }
{
    if record == 1 {
        let at = (block - FIRST_VISIBLE) as usize;
        let table = VISIBLE;
        named(table[at])
    } else {
        Err(Refusal::NoRecord)
    }
}

// The channel and detector of a record, counted from 1. Refusals: 4 for a block above 11, 5 for a version above 3, 13 for a block
// without records or a record that it has not.
//
// This is the placement of an upright spacecraft with no co-registration in use, and neither the block nor the version tells
// whether that is so. Yaw-flipped (504-02 section 3.2.3; block 0, word 5, first bit) detectors 1 and 2 change places in every
// infrared channel that has two, and blocks 3 to 10 hold visible detectors 4, 3, 2, 1, 8, 7, 6, 5. With a north-south
// co-registration offset (sections 3.2.1 and 3.3.6: up to 8 lines either way) block 3 begins with another visible detector, which
// word 184 of block 0 names. Word 4 of a record's line documentation names the detector that it came from, for infrared records as
// the SPS numbers them, 1 to 8.
pub fn place(block: u8, version: u8, record: u8) -> Result<Placed, Refusal>
    ensures { told result ≡ place_of block version «record» }
{
    if row::LAST_BLOCK < block {
        return Err(Refusal::UnknownBlock);
    }
    if row::LAST_VERSION < version {
        return Err(Refusal::UnknownVersion);
    }
    match block {
        1 | 2 => infrared(block, version, record),
        3..=10 => visible(block, record),
        _ => Err(Refusal::NoRecord),
    }
}
