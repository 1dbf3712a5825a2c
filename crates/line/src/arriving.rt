// An arriving frame: delivered if it is due, parked or noted if it is early, and else a repetition.
ghost use Rattle.std.specs.Prelude.{◌≡◌, ◌%◌, ◌≤◌, length, IfOk, if◌then◌else◌, Some, OnErr, slice_set};
ghost use Rattle.book.specs.Ledger.{has};
ghost use Rattle.line.specs.Notices.{judgement};
ghost use Rattle.line.specs.Settings.{first, last};
ghost use Rattle.line.specs.Steps.{arrival_ledger, arrival_result, arrival_state, parks};
ghost use Rattle.line.specs.View.{view};

use crate::taking::close_answered;
use crate::{Arrived, Delivery, Line};
use book::Book;
use frame::arrival::{Arrival, judge};
use frame::faults::LineFault;
use frame::kinds::Osn;
use frame::session::Open;
use hold::Hold;

impl Line {
    // What the frame says to this line, or why it is turned away: 11 to 17, 31, 32.
    fn judge_frame(&self, frame: &[u8]) -> Result<Arrival, LineFault>
        ensures answer { result ≡ judgement self.now.settings frame.now }
        ensures in_circle { IfOk result (λ a. (first self.now.settings ≤ a.number.0) × (a.number.0 ≤ last self.now.settings)) }
    {
        judge(frame, self.settings.member, self.settings.circle)
    }

    // Parks the frame of an early number, if the number is in reach and the hold has room.
    fn park<H: Hold>(&self, hold: &mut H, number: u32, frame: &[u8]) -> bool
        ensures answer { result ≡ parks (H.most hold.old) (view self.now (H.cells hold.old)) number (length frame.now) }
        ensures hold_after { H.cells hold.new ≡ (if result then slice_set (H.cells hold.old) (number % length (H.cells hold.old)) (Some frame.now) else H.cells hold.old) }
        ensures most_unchanged { H.most hold.new ≡ H.most hold.old }
    {
        let places = hold.places();
        places > 0
            && (number as usize) < self.next.0 as usize + places
            && hold.keep(number as usize % places, frame)
    }

    // Takes an arriving frame.
    pub fn arrive<H: Hold>(
        &mut self,
        _session: &Open,
        hold: &mut H,
        book: &mut Book<'_>,
        frame: &[u8],
    ) -> Result<Arrived, LineFault>
        ensures answer { result ≡ arrival_result (H.most hold.old) (view self.old (H.cells hold.old)) (has book.old) (judgement self.old.settings frame.now) frame.now }
        ensures line_and_hold_after { view self.new (H.cells hold.new) ≡ arrival_state self.old.settings (H.most hold.old) (view self.old (H.cells hold.old)) (judgement self.old.settings frame.now) frame.now }
        ensures book_after { book.new ≡ arrival_ledger (view self.old (H.cells hold.old)) book.old (judgement self.old.settings frame.now) }
        ensures set_up_unchanged { self.new.settings ≡ self.old.settings }
        ensures most_unchanged { H.most hold.new ≡ H.most hold.old }
        ensures refusal_changes_nothing { OnErr result ((view self.new (H.cells hold.new) ≡ view self.old (H.cells hold.old)) × (book.new ≡ book.old)) }
    {
        let arrival = self.judge_frame(frame)?;
        let number = arrival.number;
        if number < self.next || self.has_held(hold, number.0) {
            return Ok(Arrived::Repeated(number));
        }
        let top = self.top.0.max(number.0 + 1);
        if number == self.next {
            self.top = Osn(top);
            self.next = Osn(number.0 + 1);
            self.settle_wait(hold, true);
            return Ok(Arrived::Delivered(Delivery {
                number,
                kind: arrival.kind,
                text: arrival.text,
                size: frame.len(),
                trade: close_answered(book, arrival.answer),
            }));
        }
        let parked = self.park(hold, number.0, frame);
        self.top = Osn(top);
        self.settle_wait(hold, false);
        if parked {
            Ok(Arrived::Parked(number))
        } else {
            Ok(Arrived::Noted(number))
        }
    }
}
