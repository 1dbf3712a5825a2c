// Runs: lists of calls on a line from its set-up on, and the law that every such list keeps.
#![tactic(auto)]

use frame::faults::LineFault;
use frame::range::Range;
use line::{Arrived, Delivery, Posted, Status};
use trade::reading::Trade;

pub mod calls;

// What is asked of a line.
#[derive(Clone, Copy, PartialEq, Eq, Debug)]
pub enum Request<'a> {
    // a frame arrives
    Arrival(&'a [u8]),
    // hand out the held frame that is due
    Take,
    Tick,
    // write the 020 frame that asks for what is missing
    Fetch,
    Status,
    // write the 511 frame of a trade
    Posting(Trade<'a>),
}

// What each call answers.
#[derive(Clone, Copy, PartialEq, Eq, Debug)]
pub enum Reply {
    Arrival(Result<Arrived, LineFault>),
    Take(Result<Delivery, LineFault>),
    // the run that is reported missing, if this tick reports one
    Tick(Option<Range>),
    Fetch(Result<Range, LineFault>),
    Status(Status),
    Posting(Result<Posted, LineFault>),
}

// One call of a run: what is asked, the output that it is lent, and what it answers.
#[derive(Drop)]
pub struct Turn<'a> {
    pub request: Request<'a>,
    // of any length; only take, fetch and posting write into it
    pub output: Vec<u8>,
    // set by the call
    pub reply: Reply,
}
