// The archive for C, librahmisve.a, as a static library: all that include/rahmisve.h declares. A library exports nothing to C, and no crate
// can depend on a static library; so the functions are proved in the crates c_.., on which scope and from_c make their statements, and here
// each of them is exported: it hands its call on, and has the same contract (tests/c.test).
#![tactic(auto)]

mod blocks;
mod fields;
mod places;
mod salvages;
mod scans;
mod sections;
mod status;
mod tags;
mod version;
mod words;
