// The check word of 504-02, section 3.3.3, is a definition here (specs/Check.antt), and so is what it finds (specs/Finds.antt). It is
// computed in crates of its own, which nobody need read to know what is meant.
#![tactic(auto)]
