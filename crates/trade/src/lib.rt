// The MT 511: its fields in their order, the trade that a text means, and the text of a trade.
#![tactic(auto)]

pub mod laws;
pub mod reading;
pub mod rows;
pub mod writing;
