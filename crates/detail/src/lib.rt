// The details of a trade, field 31P: what its contents mean, how they are read, judged and written.
#![tactic(auto)]

pub mod codes;
pub mod detail;
pub mod laws;
pub mod writing;
