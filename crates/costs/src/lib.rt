// The costs of a trade: what they mean, how they are read, judged and written.
#![tactic(auto)]

pub mod amounts;
pub mod brokerage;
pub mod charges;
pub mod rebate;
