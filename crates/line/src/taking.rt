// What a delivered frame says, and taking a held frame out in its turn.
ghost use Rattle.std.specs.Prelude.{◌≡◌, ◌%◌, ◌<◌, length, if◌then◌else◌, None, OnErr, nat_le, slice_set};
ghost use Rattle.book.specs.Ledger.{has};
ghost use Rattle.hold.specs.Meaning.{cell_at, copied, size};
ghost use Rattle.line.specs.Notices.{closed_said, fate_said, notice_of};
ghost use Rattle.line.specs.Steps.{bytes_of, cell_due, take_ledger, take_output, take_result, take_state};
ghost use Rattle.line.specs.View.{view};

use crate::{Delivery, Line};
use book::{Book, Fate};
use frame::arrival::read_message;
use frame::faults::{LineFault, TEXT_AT};
use frame::kinds::{Kind, Osn};
use frame::session::Open;
use frame::texts::Answer;
use hold::Hold;

// What a frame says: its type, and for an answer what it says of a trade.
#[derive(Clone, Copy, PartialEq, Eq, Debug)]
pub(crate) struct Notice {
    pub(crate) kind: Kind,
    pub(crate) answer: Option<Answer>,
}

// Only frames that were judged are parked, so every frame that a line hands out is a message. Bytes that someone else
// put into the hold, and that are none, are handed out as a message for the member's own use. A match, since both sides are whole
// records: map_or is no plainer.
fn read_notice(frame: &[u8]) -> Notice
    ensures answer { result ≡ notice_of frame.now }
{
    match read_message(frame) {
        Ok(message) => Notice {
            kind: message.kind,
            answer: message.answer,
        },
        Err(_) => Notice {
            kind: Kind::OwnUse,
            answer: None,
        },
    }
}

// Closes the trade that a delivered frame answers, if it answers one.
pub(crate) fn close_answered(book: &mut Book<'_>, answer: Option<Answer>) -> Option<Fate>
    ensures answer { result ≡ fate_said (has book.old) answer }
    ensures book_after { book.new ≡ closed_said book.old answer }
{
    Some(book.close(answer?))
}

// Copies the frame of a number out and empties its place, if it fits; its length in any case.
fn hand_out<H: Hold>(hold: &mut H, number: u32, out: &mut [u8]) -> usize
    requires { 0 < length (H.cells hold.old) }
    ensures answer { result ≡ size (cell_at (H.cells hold.old) (number % length (H.cells hold.old))) }
    ensures output { out.new ≡ copied (cell_at (H.cells hold.old) (number % length (H.cells hold.old))) out.old }
    ensures hold_after { H.cells hold.new ≡ (if nat_le result (length out.old) then slice_set (H.cells hold.old) (number % length (H.cells hold.old)) None else H.cells hold.old) }
    ensures most_unchanged { H.most hold.new ≡ H.most hold.old }
{
    let place = number as usize % hold.places();
    let size = hold.look(place).unwrap_or(0);
    if size <= out.len() {
        let _copied = hold.copy(place, out);
        hold.drop(place);
    }
    size
}

impl Line {
    // Hands out the held frame under next, and delivers it: 33 if it is not held, then 20.
    pub fn take<H: Hold>(
        &mut self,
        _session: &Open,
        hold: &mut H,
        book: &mut Book<'_>,
        out: &mut [u8],
    ) -> Result<Delivery, LineFault>
        ensures answer { result ≡ take_result (view self.old (H.cells hold.old)) (has book.old) out.old }
        ensures output { out.new ≡ take_output (view self.old (H.cells hold.old)) out.old }
        ensures line_and_hold_after { view self.new (H.cells hold.new) ≡ take_state self.old.settings (view self.old (H.cells hold.old)) out.old }
        ensures book_after { book.new ≡ take_ledger (view self.old (H.cells hold.old)) book.old out.old }
        ensures set_up_unchanged { self.new.settings ≡ self.old.settings }
        ensures most_unchanged { H.most hold.new ≡ H.most hold.old }
        ensures refusal_changes_nothing { OnErr result ((view self.new (H.cells hold.new) ≡ view self.old (H.cells hold.old)) × (book.new ≡ book.old) × (out.new ≡ out.old)) }
    {
        let number = self.next;
        if number >= self.top || !self.has_held(hold, number.0) {
            return Err(LineFault::NotHeld);
        }
        let size = hand_out(hold, number.0, out);
        if size > out.len() {
            return Err(LineFault::Short);
        }
        self.next = Osn(number.0 + 1);
        self.settle_wait(hold, true);
        let notice = read_notice(&out[0..size]);
        Ok(Delivery {
            number,
            kind: notice.kind,
            text: TEXT_AT,
            size,
            trade: close_answered(book, notice.answer),
        })
    }
}
