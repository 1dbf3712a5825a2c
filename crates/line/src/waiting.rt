// The wait at a lost number: what is held, the ticks, the run that is missing, and the fetch that asks for it.
ghost use Rattle.std.specs.Prelude.{◌≡◌, ◌<◌, ◌≤◌, ◌++◌, true, length, drop, if◌then◌else◌, Ok, Err, OnErr, nat_le};
ghost use Rattle.line.specs.Steps.{fetch_output, fetch_result, fetch_state, holds, retrieval, run_end, wait_settled, tick_result, tick_state, wait_of};
ghost use Rattle.line.specs.View.{view};
ghost use Rattle.frame.specs.declared.faults.LineFault.TheVariants.{Short};

use crate::{Line, Wait};
use frame::faults::LineFault;
use frame::kinds::{Kind, Mark, Osn};
use frame::range::{Range, write_range};
use frame::session::Open;
use frame::write::{Heading, write_frame};
use hold::Hold;

// A run of missing numbers goes at most this far past its first, so that a retrieval asks for at most 100.
const RUN_PAST_FIRST: u32 = 99;

impl Line {
    // Whether the number is held: due or above, in reach of the hold, and its place is taken.
    pub(crate) fn has_held<H: Hold>(&self, hold: &H, number: u32) -> bool
        ensures answer { result ≡ holds (view self.now (H.cells hold.now)) number }
    {
        let places = hold.places();
        number >= self.next.0
            && ((number - self.next.0) as usize) < places
            && hold.look(number as usize % places).is_some()
    }

    // How many ticks a try has.
    fn wait_of(&self, _try_number: u8) -> u16
        ensures answer { result ≡ wait_of self.now.settings _try_number }
        ensures some { result ≤ 600 }
    {
        self.settings.wait
    }

    // The start of a try: all its ticks are left, and a fetch is due.
    fn begin_try(&self, number: u8) -> Wait
        requires from_one { 1 ≤ number }
        requires to_nine { number ≤ 9 }
        ensures try_number { result.tries ≡ number }
        ensures ticks { result.left ≡ wait_of self.now.settings number }
        ensures fetch_due { result.fetch_due ≡ true }
    {
        Wait {
            tries: number,
            left: self.wait_of(number),
            fetch_due: true,
        }
    }

    // Begins a wait, keeps it running or ends it, as next, top and the hold have it. Where next moved, a wait is new.
    pub(crate) fn settle_wait<H: Hold>(&mut self, hold: &H, moved: bool)
        ensures line_after { view self.new (H.cells hold.now) ≡ wait_settled self.old.settings moved (view self.old (H.cells hold.now)) }
        ensures set_up_unchanged { self.new.settings ≡ self.old.settings }
    {
        let waits = self.next < self.top && !self.has_held(hold, self.next.0);
        if !waits {
            self.wait = None;
        } else if moved || self.wait.is_none() {
            self.wait = Some(self.begin_try(1));
        }
    }

    // The last number of the run that is missing from next on: at most 100 numbers, all seen to be skipped, none of them held.
    fn last_of_run<H: Hold>(&self, hold: &H) -> u32
        requires { self.now.next.0 < self.now.top.0 }
        ensures answer { result ≡ run_end (view self.now (H.cells hold.now)) }
        ensures from_next { self.now.next.0 ≤ result }
        ensures below_top { result < self.now.top.0 }
    {
        let first = self.next.0;
        let end = self.top.0.min(first + RUN_PAST_FIRST + 1);
        for number in first + 1..end {
            if self.has_held(hold, number) {
                return number - 1;
            }
        }
        end - 1
    }

    // One tick of the clock. The last tick of the last try reports the run missing, and next goes past it.
    pub fn tick<H: Hold>(&mut self, _session: &Open, hold: &H) -> Option<Range>
        ensures answer { result ≡ tick_result self.old.settings (view self.old (H.cells hold.now)) }
        ensures line_after { view self.new (H.cells hold.now) ≡ tick_state self.old.settings (view self.old (H.cells hold.now)) }
        ensures set_up_unchanged { self.new.settings ≡ self.old.settings }
    {
        if self.top <= self.next {
            return None;
        }
        let wait = self.wait.as_mut()?;
        if wait.left > 1 {
            wait.left -= 1;
            return None;
        }
        let tries = wait.tries;
        if tries < self.settings.tries {
            self.wait = Some(self.begin_try(tries + 1));
            return None;
        }
        let from = self.next;
        let last = self.last_of_run(hold);
        self.next = Osn(last + 1);
        self.settle_wait(hold, true);
        Some(Range {
            from,
            to: Osn(last),
        })
    }

    // Writes the 020 frame that asks for the run once more, once for each try: 36 if none is due, then 20. The frame has 36 bytes.
    pub fn fetch<H: Hold>(
        &mut self,
        _session: &Open,
        hold: &H,
        out: &mut [u8],
    ) -> Result<Range, LineFault>
        ensures answer { result ≡ fetch_result (view self.old (H.cells hold.now)) out.old }
        ensures output { out.new ≡ fetch_output self.old.settings (view self.old (H.cells hold.now)) out.old }
        ensures line_after { view self.new (H.cells hold.now) ≡ fetch_state (view self.old (H.cells hold.now)) out.old }
        ensures set_up_unchanged { self.new.settings ≡ self.old.settings }
        ensures refusal_changes_nothing { OnErr result ((view self.new (H.cells hold.now) ≡ view self.old (H.cells hold.now)) × (out.new ≡ out.old)) }
    {
        let mut wait = self
            .wait
            .filter(|wait| wait.fetch_due)
            .ok_or(LineFault::NoFetchDue)?;
        if self.top <= self.next {
            return Err(LineFault::NoFetchDue);
        }
        let range = Range {
            from: self.next,
            to: Osn(self.last_of_run(hold)),
        };
        write_retrieval(out, self.settings.member, range)?;
        wait.fetch_due = false;
        self.wait = Some(wait);
        Ok(range)
    }
}

// Writes the 020 frame for a range.
fn write_retrieval(out: &mut [u8], member: u16, range: Range) -> Result<(), LineFault>
    requires member { member ≤ 9999 }
    requires numbers { (range.from.0 ≤ 999999) × (range.to.0 ≤ 999999) }
    ensures answer { result ≡ (if nat_le 36 (length out.old) then Ok tt else Err Short) }
    ensures output { out.new ≡ (if nat_le 36 (length out.old) then retrieval member range.from.0 range.to.0 ++ drop 36 out.old else out.old) }
{
    let text = write_range(range).map_err(|_| LineFault::Number)?;
    write_frame(
        out,
        Heading {
            member,
            kind: Kind::Retrieval,
            number: 0,
            mark: Mark::Fresh,
        },
        &text,
    )?;
    Ok(())
}
