// The pieces that field contents are made of: runs of bytes, numbers, decimals, dates and times; and a scratch to write them into.
#![tactic(auto)]

pub mod calendar;
pub mod contents;
pub mod cuts;
pub mod decimals;
pub mod scratch;
