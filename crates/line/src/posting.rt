// Posting a trade: its text in a 511 frame, under the next of our numbers.
ghost use Rattle.std.specs.Prelude.{◌≡◌, ◌≤◌, length, OnErr};
ghost use Rattle.line.specs.Composing.{Composed, PostedAs, posting_fault};
ghost use Rattle.trade.specs.Views.{view as deal_of};

use crate::{Line, Posted};
use book::Book;
use frame::faults::LineFault;
use frame::kinds::{Kind, Mark};
use frame::session::Open;
use frame::write::{Heading, write_frame};
use trade::reading::Trade;
use trade::writing::WriteFault;

// Room for the longest text of a trade, which is written into an array, since nothing is allocated.
const TEXT_ROOM: usize = 320;

// What a trade's writer refuses, as a fault of the call. A function, since neither type is this crate's to give a From.
fn fault_of(fault: WriteFault) -> LineFault
    ensures same_refusal { result ≡ posting_fault fault }
{
    match fault {
        WriteFault::Contents(fault) => LineFault::InTrade(fault),
        WriteFault::Short => LineFault::Short,
    }
}

// Writes the trade's text, which always fits.
fn compose(trade: &Trade<'_>, text: &mut [u8]) -> Result<usize, LineFault>
    requires { 320 ≤ length text.old }
    ensures composed { Composed (deal_of trade.now) text.new result }
{
    trade.write(text).map_err(fault_of)
}

impl Line {
    // Writes the 511 frame of the trade and enters the trade into the book: the trade's own fault first, then 35, 34 and 20.
    // The line itself stays as it is.
    pub fn post(
        &self,
        _session: &Open,
        book: &mut Book<'_>,
        trade: &Trade<'_>,
        out: &mut [u8],
    ) -> Result<Posted, LineFault>
        ensures posted_or_refused { PostedAs self.now.settings.member (deal_of trade.now) book.old out.old result book.new out.new }
        ensures refusal_changes_nothing { OnErr result ((book.new ≡ book.old) × (out.new ≡ out.old)) }
    {
        let mut text = [0u8; TEXT_ROOM];
        let size = compose(trade, &mut text)?;
        let isn = book.next_isn()?;
        let heading = Heading {
            member: self.settings.member,
            kind: Kind::Trade,
            number: isn.0,
            mark: Mark::Fresh,
        };
        let size = write_frame(out, heading, &text[0..size])?;
        book.enter()?;
        Ok(Posted { isn, size })
    }
}
