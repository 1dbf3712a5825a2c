// Frames as they travel between a member and the exchange: headers, texts of answers and retrievals, the judge of an arrival, and sessions.
// That a refusal leaves an output as it was is said in the contract of each call that writes, since no type can say it.
#![tactic(auto)]

pub mod arrival;
pub mod faults;
pub mod header;
pub mod kinds;
pub mod range;
pub mod session;
pub mod texts;
pub mod write;
