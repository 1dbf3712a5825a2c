// The walk over a text of labelled fields. A field is a label, contents, CR and LF; which labels stand in which order belongs to the message type.
#![tactic(auto)]

pub mod lines;
pub mod reader;
