// The contents of seven short fields of an MT 511: what they mean, how they are read, judged and written.
#![tactic(auto)]

pub mod codes;
pub mod parties;
pub mod terms;
