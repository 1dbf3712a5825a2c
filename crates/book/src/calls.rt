// The calls of the book.
ghost use Rattle.std.specs.Prelude.{◌≡◌, ◌+◌, ◌≤◌, min, length, OnErr};
ghost use Rattle.book.specs.Ledger.{account_of, blank, closed, entered, entry_at, fate_of, has, next_isn};

use crate::{Account, Book, Fate, OpenTrade};
use frame::faults::LineFault;
use frame::kinds::Isn;
use frame::texts::{Answer, Verdict};
use table::Table;

// A book has at most this many places.
pub const MOST_PLACES: usize = 64;

// The last of our numbers.
pub const LAST_ISN: u32 = 999999;

impl<'a> Book<'a> {
    // A book over the first 64 entries, or all if fewer, with no trade in it, whatever the entries were.
    pub fn new(entries: &'a mut [Option<OpenTrade>]) -> Book<'a>
        ensures nothing_posted { result ≡ blank (min 64 (length entries.old)) }
    {
        let places = entries.len().min(MOST_PLACES);
        Book {
            trades: Table::new(&mut entries[..places]),
            posted: 0,
            confirmed: 0,
            rejected: 0,
        }
    }

    // Forgets every trade; the places stay.
    pub fn clear(&mut self)
        ensures nothing_posted { self.new ≡ blank (length self.old.entries) }
    {
        self.trades.clear();
        self.posted = 0;
        self.confirmed = 0;
        self.rejected = 0;
    }

    // How many places there are.
    pub fn places(&self) -> usize
        ensures answer { result ≡ length self.now.entries }
    {
        self.trades.places()
    }

    // The entry at the place where the trade belongs; none without a place.
    fn entry(&self, isn: Isn) -> Option<OpenTrade>
        ensures answer { result ≡ entry_at self.now isn.0 }
    {
        let place = (isn.0 as usize).checked_rem(self.trades.places())?;
        self.trades.get(place)
    }

    // Whether the trade is open.
    pub fn has_open(&self, isn: Isn) -> bool
        ensures answer { result ≡ has self.now isn.0 }
    {
        self.entry(isn).is_some_and(|trade| trade.isn == isn)
    }

    // The number of the next trade: 35 if our numbers are used up, 34 without a free place for it.
    pub fn next_isn(&self) -> Result<Isn, LineFault>
        ensures answer { result ≡ next_isn self.now }
    {
        if self.posted >= LAST_ISN {
            return Err(LineFault::UsedUp);
        }
        let isn = Isn(self.posted + 1);
        if self.places() == 0 || self.entry(isn).is_some() {
            return Err(LineFault::NoBookPlace);
        }
        Ok(isn)
    }

    // Enters the next trade at its place.
    pub fn enter(&mut self) -> Result<Isn, LineFault>
        ensures answer { result ≡ next_isn self.old }
        ensures book_after { self.new ≡ entered self.old }
        ensures refusal_changes_nothing { OnErr result (self.new ≡ self.old) }
    {
        let isn = self.next_isn()?;
        let place = isn.0 as usize % self.trades.places();
        self.trades.put(place, OpenTrade { isn });
        self.posted = isn.0;
        Ok(isn)
    }

    // Closes the trade that the answer names, if it is open.
    pub fn close(&mut self, answer: Answer) -> Fate
        ensures answer { result ≡ fate_of (has self.old) answer }
        ensures book_after { self.new ≡ closed self.old answer }
    {
        if !self.has_open(answer.isn) {
            return Fate::Unknown;
        }
        let place = answer.isn.0 as usize % self.trades.places();
        self.trades.remove(place);
        match answer.verdict {
            Verdict::Confirmed => {
                self.confirmed += 1;
                Fate::Confirmed
            }
            Verdict::Rejected => {
                self.rejected += 1;
                Fate::Rejected
            }
        }
    }

    // How many trades were posted, and what became of them: those that are neither confirmed nor rejected are open.
    pub fn account(&self) -> Account
        ensures answer { result ≡ account_of self.now }
        ensures each_trade_counted { result.posted ≡ result.«open» + result.confirmed + result.rejected }
        ensures at_most_999999 { result.posted ≤ 999999 }
    {
        Account {
            posted: self.posted,
            open: self.posted - self.confirmed - self.rejected,
            confirmed: self.confirmed,
            rejected: self.rejected,
        }
    }
}
