#![tactic(auto)]

// Statements on the C interface (specs/FromC.antt), beside the scope's own. Nothing is called here.
