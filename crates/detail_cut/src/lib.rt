// The contents of field 31P, cut into their eight pieces.
#![tactic(auto)]

pub mod cut;
