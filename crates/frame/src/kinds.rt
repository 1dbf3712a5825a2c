// Message types, marks, and the two kinds of numbers.
ghost use Rattle.frame.specs.Kinds.{code, kind_of, arrives, answers, mark_byte, mark_with};
ghost use Rattle.frame.specs.Words.{kind_words, mark_words};
ghost use Rattle.frame.specs.declared.faults.FrameFault.TheVariants.{NotTaken};
ghost use Rattle.frame.specs.declared.kinds.UnknownMark.{UnknownMark};
ghost use Rattle.std.specs.Prelude.{◌≡◌, Some, ok_or};

use crate::faults::FrameFault;
use std::fmt;

// The message types that this product writes or takes, by what they say. Each has the number that a header has for it.
#[derive(Clone, Copy, PartialEq, Eq, Debug)]
pub enum Kind {
    // a member asks to be logged on
    LogOn = 0,
    // the exchange confirms the logon
    LoggedOn = 1,
    // a member asks to be logged off
    LogOff = 2,
    // the exchange confirms the logoff
    LoggedOff = 3,
    // a member asks for messages once more
    Retrieval = 20,
    // a direct trade between two banks
    Trade = 511,
    // a contract note
    ContractNote = 512,
    // the execution of a fund order
    FundExecution = 515,
    // the execution of an order
    Execution = 519,
    // an event in securities business
    Event = 551,
    // an inquiry, as a change or a cancellation
    Inquiry = 595,
    // the answer to a posted trade
    Answer = 596,
    // a message for the member's own application
    OwnUse = 598,
    // the orders of a contract note
    NoteOrders = 599,
}

impl Kind {
    // The number that a header has for this type. Not by `From`: `kind.code()` says which number it is, as `header.code` does.
    pub fn code(self) -> u16
        ensures as_numbered { result ≡ code self }
    {
        self as u16
    }

    // Whether the exchange sends this type under a number of its own.
    pub fn arrives(self) -> bool
        ensures numbered_messages_alone { result ≡ arrives self }
    {
        !matches!(
            self,
            Kind::LogOn
                | Kind::LoggedOn
                | Kind::LogOff
                | Kind::LoggedOff
                | Kind::Retrieval
                | Kind::Trade
        )
    }

    // Whether a text of this type is the answer to a posted trade.
    pub fn answers(self) -> bool
        ensures answer_alone { result ≡ answers self }
    {
        matches!(self, Kind::Answer)
    }
}

// The type with this number, if it is one of ours.
impl TryFrom<u16> for Kind {
    type Error = FrameFault;

    ghost try_from_gives = { λ n r. r ≡ ok_or (kind_of n) NotTaken };

    fn try_from(code: u16) -> Result<Kind, FrameFault> {
        match code {
            0 => Ok(Kind::LogOn),
            1 => Ok(Kind::LoggedOn),
            2 => Ok(Kind::LogOff),
            3 => Ok(Kind::LoggedOff),
            20 => Ok(Kind::Retrieval),
            511 => Ok(Kind::Trade),
            512 => Ok(Kind::ContractNote),
            515 => Ok(Kind::FundExecution),
            519 => Ok(Kind::Execution),
            551 => Ok(Kind::Event),
            595 => Ok(Kind::Inquiry),
            596 => Ok(Kind::Answer),
            598 => Ok(Kind::OwnUse),
            599 => Ok(Kind::NoteOrders),
            _ => Err(FrameFault::NotTaken),
        }
    }
}

impl fmt::Display for Kind {
    ghost output = { λ k. Some (kind_words k) };

    fn fmt<W: fmt::Write>(&self, f: &mut fmt::Formatter<W>) -> fmt::Result {
        f.write_str(match self {
            Kind::LogOn => "logon",
            Kind::LoggedOn => "logon confirmed",
            Kind::LogOff => "logoff",
            Kind::LoggedOff => "logoff confirmed",
            Kind::Retrieval => "retrieval",
            Kind::Trade => "direct trade",
            Kind::ContractNote => "contract note",
            Kind::FundExecution => "fund order execution",
            Kind::Execution => "execution",
            Kind::Event => "event",
            Kind::Inquiry => "inquiry",
            Kind::Answer => "answer",
            Kind::OwnUse => "message for own use",
            Kind::NoteOrders => "orders of a contract note",
        })
    }
}

// Whether a frame was retrieved (J) or not (N).
#[derive(Clone, Copy, PartialEq, Eq, Debug)]
pub enum Mark {
    Retrieved,
    Fresh,
}

// A byte that is no mark.
#[derive(Clone, Copy, PartialEq, Eq, Debug)]
pub struct UnknownMark;

impl From<Mark> for u8 {
    ghost from_gives = { λ m b. b ≡ mark_byte m };

    fn from(mark: Mark) -> u8 {
        match mark {
            Mark::Retrieved => b'J',
            Mark::Fresh => b'N',
        }
    }
}

impl TryFrom<u8> for Mark {
    type Error = UnknownMark;

    ghost try_from_gives = { λ b r. r ≡ ok_or (mark_with b) (record {}) };

    fn try_from(b: u8) -> Result<Mark, UnknownMark> {
        match b {
            b'J' => Ok(Mark::Retrieved),
            b'N' => Ok(Mark::Fresh),
            _ => Err(UnknownMark),
        }
    }
}

impl fmt::Display for Mark {
    ghost output = { λ m. Some (mark_words m) };

    fn fmt<W: fmt::Write>(&self, f: &mut fmt::Formatter<W>) -> fmt::Result {
        f.write_str(match self {
            Mark::Retrieved => "retrieved",
            Mark::Fresh => "not retrieved",
        })
    }
}

// Our number for a posted trade, from 1 to 999999.
#[derive(Clone, Copy, PartialEq, Eq, PartialOrd, Ord, Debug)]
pub struct Isn(pub u32);

// The exchange's number for a message.
#[derive(Clone, Copy, PartialEq, Eq, PartialOrd, Ord, Debug)]
pub struct Osn(pub u32);
