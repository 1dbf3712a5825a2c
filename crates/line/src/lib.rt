// The line: six calls that bring the exchange's numbered messages to the bank in order, ask for what is lost,
// and post our trades. What a call leaves as it was (the set-up, the most bytes of the hold, all of it at a refusal) is said in each
// contract, since a type's invariant cannot tie what is after a call to what was before.
#![tactic(auto)]

ghost use Rattle.std.specs.Prelude.{◌+◌, ◌≤◌};

use book::{Account, Fate};
use frame::arrival::Circle;
use frame::kinds::{Isn, Kind, Osn};

pub mod arriving;
pub mod posting;
pub mod setting;
pub mod taking;
pub mod telling;
pub mod waiting;

// What set-up fixes for the life of a line.
#[derive(Clone, Copy, PartialEq, Eq, Debug)]
pub struct Settings {
    // the member whose frames the line takes, 0 to 9999
    pub member: u16,
    // the numbers of the exchange that it takes, within 1 to 999999
    pub circle: Circle,
    // how often a lost number is asked for before it is reported missing, 1 to 9
    pub tries: u8,
    // the ticks of each try, 1 to 600
    pub wait: u16,
}

// The wait at a lost number: the try, the ticks that are left of it, and whether a fetch is due in it. It holds proofs beside its
// numbers, and nothing compares or prints it.
#[derive(Clone, Copy)]
struct Wait {
    tries: u8,
    left: u16,
    fetch_due: bool,
    ghost counts_from_one: { 1 ≤ tries },
    ghost nine_at_most: { tries ≤ 9 },
    ghost ticks_at_most_600: { left ≤ 600 },
}

// A line. Its calls take line, hold and book apart, and an open session: a line outlives its sessions, and what a call only asks it
// borrows. `next` is the number due, and `top` is one above the highest number seen.
#[derive(Drop)]
pub struct Line {
    settings: Settings,
    next: Osn,
    top: Osn,
    // at the number due, if it is lost
    wait: Option<Wait>,
    ghost member_of_four_digits: { settings.member ≤ 9999 },
    ghost circle_of_six_digits: { settings.circle.last.0 ≤ 999999 },
    ghost one_try_at_least: { 1 ≤ settings.tries },
    ghost nine_tries_at_most: { settings.tries ≤ 9 },
    ghost one_tick_at_least: { 1 ≤ settings.wait },
    ghost ticks_at_most_600: { settings.wait ≤ 600 },
    ghost first_to_next: { settings.circle.first.0 ≤ next.0 },
    ghost next_to_top: { next.0 ≤ top.0 },
    ghost top_to_last: { top.0 ≤ settings.circle.last.0 + 1 },
}

// A message brought in its turn.
#[derive(Clone, Copy, PartialEq, Eq, Debug)]
pub struct Delivery {
    pub number: Osn,
    pub kind: Kind,
    // where the text begins in the frame
    pub text: usize,
    // the bytes of the frame
    pub size: usize,
    // for an answer to a trade: what it did to the trade
    pub trade: Option<Fate>,
}

// What became of an arriving frame.
#[derive(Clone, Copy, PartialEq, Eq, Debug)]
pub enum Arrived {
    // it is the one due
    Delivered(Delivery),
    // it is early, and waits in the hold
    Parked(Osn),
    // it is early and finds no room: only its number is noted
    Noted(Osn),
    // it is late, or a double of one that waits in the hold
    Repeated(Osn),
}

// A trade that was posted under our number, and the bytes of its frame.
#[derive(Clone, Copy, PartialEq, Eq, Debug)]
pub struct Posted {
    pub isn: Isn,
    pub size: usize,
}

// How a line stands.
#[derive(Clone, Copy, PartialEq, Eq, Debug)]
pub struct Status {
    pub next: Osn,
    pub top: Osn,
    pub tries: u8,
    pub left: u16,
    // the places of the hold that are taken
    pub taken: usize,
    pub account: Account,
}
