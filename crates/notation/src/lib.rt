// What every format shares: refusals with number, layer and offset, classes of bytes, and parts of what is read.
#![tactic(auto)]

pub mod classes;
pub mod part;
pub mod refusals;
