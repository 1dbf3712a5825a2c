// How a line stands, with its hold and its book.
ghost use Rattle.line.specs.Steps.{status_of};
ghost use Rattle.line.specs.View.{view};
ghost use Rattle.std.specs.Prelude.{◌≡◌, ◌+◌, ◌≤◌};

use crate::{Line, Status};
use book::Book;
use frame::session::Open;
use hold::Hold;

impl Line {
    // Tells how the line stands. It borrows all three, so it changes none of them: a question never moves a wait.
    pub fn status<H: Hold>(&self, _session: &Open, hold: &H, book: &Book<'_>) -> Status
        ensures answer { result ≡ status_of (view self.now (H.cells hold.now)) book.now }
        ensures each_trade_counted { result.account.posted ≡ result.account.«open» + result.account.confirmed + result.account.rejected }
        ensures at_most_999999 { result.account.posted ≤ 999999 }
    {
        Status {
            next: self.next,
            top: self.top,
            tries: self.wait.map_or(0, |wait| wait.tries),
            left: self.wait.map_or(0, |wait| wait.left),
            taken: hold.taken(),
            account: book.account(),
        }
    }
}
