// The texts of numbered messages: the answer to a posted trade (596), and the plain text of all others.
ghost use Rattle.std.specs.Prelude.{◌≡◌, ok_or, ℕ, not, position, zip, if◌then◌else◌, Some, None};
ghost use Rattle.frame.specs.Forms.{meets};
ghost use Rattle.frame.specs.Forms.Spot.{plain};
ghost use Rattle.frame.specs.Texts.{answer_of, plain_of, front_right, isn_of, grounds, is_trade_number, is_reason, verdict_byte, verdict_with};
ghost use Rattle.frame.specs.Words.{verdict_words};
ghost use Rattle.frame.specs.declared.texts.UnknownVerdict.{UnknownVerdict};
ghost use Rattle.notation.specs.Classes.{is_of};
ghost use Rattle.notation.specs.declared.classes.Class.{Class};
ghost use Rattle.notation.specs.declared.classes.Class.TheVariants.{Either};
ghost use Rattle.std.specs.List.{list_all};

use crate::faults::NOT_OF_THE_NOTATION;
use crate::header::read_number;
use crate::kinds::Isn;
use notation::classes::{Class, is_free};
use notation::refusals::{FieldFault, Why};
use std::fmt;

// What the exchange decides on a posted trade.
#[derive(Clone, Copy, PartialEq, Eq, Debug)]
pub enum Verdict {
    // B, with the exchange's number for the trade
    Confirmed,
    // A, with a reason
    Rejected,
}

// A byte that is no verdict.
#[derive(Clone, Copy, PartialEq, Eq, Debug)]
pub struct UnknownVerdict;

impl From<Verdict> for u8 {
    ghost from_gives = { λ v b. b ≡ verdict_byte v };

    fn from(verdict: Verdict) -> u8 {
        match verdict {
            Verdict::Confirmed => b'B',
            Verdict::Rejected => b'A',
        }
    }
}

// As for a mark, over other letters: each type has its own conversion, as From and TryFrom want it.
impl TryFrom<u8> for Verdict {
    type Error = UnknownVerdict;

    ghost try_from_gives = { λ b r. r ≡ ok_or (verdict_with b) (record {}) };

    fn try_from(b: u8) -> Result<Verdict, UnknownVerdict> {
        match b {
            b'B' => Ok(Verdict::Confirmed),
            b'A' => Ok(Verdict::Rejected),
            _ => Err(UnknownVerdict),
        }
    }
}

impl fmt::Display for Verdict {
    ghost output = { λ v. Some (verdict_words v) };

    fn fmt<W: fmt::Write>(&self, f: &mut fmt::Formatter<W>) -> fmt::Result {
        f.write_str(match self {
            Verdict::Confirmed => "confirmed",
            Verdict::Rejected => "rejected",
        })
    }
}

// The answer to a posted trade.
#[derive(Clone, Copy, PartialEq, Eq, Debug)]
pub struct Answer {
    pub isn: Isn,
    pub verdict: Verdict,
}

// `ISN,B,` and a trade number, or `ISN,A,` and a reason.
pub fn read_answer(text: &[u8]) -> Result<Answer, FieldFault>
    ensures answer { result ≡ answer_of text.now }
{
    let isn = read_isn(text).ok_or(NOT_OF_THE_NOTATION)?;
    let verdict = Verdict::try_from(text[7]).map_err(|_| FieldFault {
        why: Why::Code,
        offset: 7,
    })?;
    are_grounds(verdict, &text[9..])
        .then_some(Answer { isn, verdict })
        .ok_or(NOT_OF_THE_NOTATION)
}

// Whether this is what stands behind the verdict: a trade number, or a reason.
fn are_grounds(verdict: Verdict, rest: &[u8]) -> bool
    ensures answer { result ≡ grounds verdict rest.now }
{
    match verdict {
        Verdict::Confirmed => is_trade_number(rest),
        Verdict::Rejected => is_reason(rest),
    }
}

// The ISN of an answer whose front is right but perhaps for its letter.
fn read_isn(text: &[u8]) -> Option<Isn>
    ensures answer { result ≡ (if front_right text.now then Some (record { 0 = isn_of text.now }) else None) }
{
    let isn = read_number(text, 0, 6).ok()?;
    (isn > 0 && text.get(8) == Some(&b',')).then_some(Isn(isn))
}

// A byte of a plain text: a free byte, CR or LF.
fn is_plain(b: u8) -> bool
    ensures plain_bytes_alone { result ≡ meets plain b }
{
    is_free(b) || b == b'\r' || b == b'\n'
}

// The first byte that may not stand in a plain text.
fn first_outside(text: &[u8]) -> Option<usize>
    ensures first { result ≡ position (λ b. not (meets plain b)) text.now }
{
    text.iter().position(|b| !is_plain(*b))
}

// Whether all bytes are digits or capitals.
fn are_figures(text: &[u8]) -> bool
    ensures each { result ≡ list_all (is_of Either) text.now }
{
    text.iter().all(|b| Class::Either.has(*b))
}

// Whether each byte is of the class that the form has at its place.
fn are_of(text: &[u8], form: &[Class]) -> bool
    ensures each { result ≡ list_all (λ (x : ℕ × Class). is_of x.1 x.0) (zip text.now form.now) }
{
    text.iter().zip(form.iter()).all(|(b, class)| class.has(*b))
}

// The exchange's number for a trade: 1 to 16 digits or capitals.
#[tactic(auto, using(crate::proofs::Reasons::trade_number_is))]
fn is_trade_number(text: &[u8]) -> bool
    ensures answer { result ≡ is_trade_number text.now }
{
    text.len() >= 1 && text.len() <= 16 && are_figures(text)
}

// A reason such as BC5120F: two capitals, four digits, a capital.
const REASON: [Class; 7] = [
    Class::Capital,
    Class::Capital,
    Class::Digit,
    Class::Digit,
    Class::Digit,
    Class::Digit,
    Class::Capital,
];

#[tactic(auto, using(crate::proofs::Reasons::reason_is))]
fn is_reason(text: &[u8]) -> bool
    ensures answer { result ≡ is_reason text.now }
{
    text.len() == 7 && are_of(text, &REASON)
}

// One or more free bytes, CR and LF; else 16 at the first wrong byte, or at the text's start if it is empty.
pub fn check_plain(text: &[u8]) -> Result<(), FieldFault>
    ensures answer { result ≡ plain_of text.now }
{
    if text.is_empty() {
        return Err(NOT_OF_THE_NOTATION);
    }
    match first_outside(text) {
        None => Ok(()),
        Some(offset) => Err(FieldFault {
            why: Why::Notation,
            offset,
        }),
    }
}
