#![tactic(auto)]

// The scope as statements over the crates below, a file a section (specs/). Nothing is called here.
