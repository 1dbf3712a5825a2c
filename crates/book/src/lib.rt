// The book: our posted trades that are still open, and how many were confirmed and rejected.
#![tactic(auto)]

use frame::kinds::Isn;
use std::marker::Model;
use table::Table;

pub mod calls;

// An entry of the book: a posted trade that waits for its answer.
#[derive(Clone, Copy, PartialEq, Eq, Debug)]
pub struct OpenTrade {
    isn: Isn,
}

// Place k mod U, of U places, has the open trade k or none.
#[derive(Drop)]
pub struct Book<'a> {
    trades: Table<'a, OpenTrade>,
    posted: u32,
    confirmed: u32,
    rejected: u32,
}

// A book is its entries and its counts. Every posted trade is open, confirmed or rejected.
impl<'a> Model for Book<'a> {
    ghost use Rattle.std.specs.Prelude.{◌≡◌, ◌+◌, ◌≤◌};
    ghost use Rattle.table.specs.Places.{taken_places};
    ghost use Rattle.book.specs.Ledger.{Ledger};

    ghost Value = { Ledger };

    ghost view = { λ b. record { entries = b.trades; posted = b.posted; confirmed = b.confirmed; rejected = b.rejected } };

    ghost invariant = { λ b. (b.posted ≡ taken_places b.trades + b.confirmed + b.rejected) × (b.posted ≤ 999999) };
}

// What an answer of the exchange does to the trade that it names.
#[derive(Clone, Copy, PartialEq, Eq, Debug)]
pub enum Fate {
    Confirmed,
    Rejected,
    // no such trade is open
    Unknown,
}

// How many trades were posted, and what became of them.
#[derive(Clone, Copy, PartialEq, Eq, Debug)]
pub struct Account {
    pub posted: u32,
    pub open: u32,
    pub confirmed: u32,
    pub rejected: u32,
}
