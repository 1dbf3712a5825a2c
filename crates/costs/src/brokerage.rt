// Field 71C: brokerage.
ghost use Rattle.std.specs.Prelude.{◌≡◌, ◌<◌, None};
ghost use Rattle.costs.specs.Costs.{row71c, CutBrokerage, Brokers, letters, agreed_of};

use crate::amounts::{take_amount, within, write_amount};
use fields::codes::optional_code;
use notation::refusals::Why;
use pieces::contents::Contents;
use pieces::decimals::Scale;
use pieces::scratch::Scratch;

// What the broker gets.
#[derive(Clone, Copy, PartialEq, Eq, Debug)]
pub enum Brokerage {
    // AC: this amount, in hundredths, in place of the usual one
    Agreed(i64),
    // FC: no brokerage
    Free,
    // FR: no brokerage, no expenses, no commission
    FreeOfAll,
    // HC: half of the usual brokerage
    Half,
}

fn cut_brokerage(s: &[u8]) -> Option<(Option<i64>, Option<[u8; 2]>)>
    ensures { CutBrokerage s.now result }
{
    if s.is_empty() {
        return None;
    }
    let (amount, rest) = take_amount(s)?;
    Some((amount, optional_code(rest)?))
}

// An amount needs AC, and AC needs an amount.
fn brokerage_of(amount: Option<i64>, code: Option<[u8; 2]>) -> Result<Brokerage, Why>
    requires { amount ≡ None → code ≡ None → ⊥ }
    ensures { Brokers amount code result }
{
    match (&code.ok_or(Why::Pieces)?, amount) {
        (b"AC", Some(z)) => Ok(Brokerage::Agreed(z)),
        (b"AC", None) => Err(Why::Pieces),
        (b"FC", None) => Ok(Brokerage::Free),
        (b"FR", None) => Ok(Brokerage::FreeOfAll),
        (b"HC", None) => Ok(Brokerage::Half),
        (b"FC" | b"FR" | b"HC", Some(_)) => Err(Why::Pieces),
        _ => Err(Why::Code),
    }
}

impl Brokerage {
    // The code that it is written with.
    fn letters(self) -> [u8; 2]
        ensures { result ≡ letters self }
    {
        match self {
            Brokerage::Agreed(_) => *b"AC",
            Brokerage::Free => *b"FC",
            Brokerage::FreeOfAll => *b"FR",
            Brokerage::Half => *b"HC",
        }
    }

    // The amount of an agreed brokerage.
    fn agreed(self) -> Option<i64>
        ensures { result ≡ agreed_of self }
    {
        match self {
            Brokerage::Agreed(z) => Some(z),
            _ => None,
        }
    }
}

impl Contents for Brokerage {
    ghost format = { row71c };

    fn read(s: &[u8]) -> Result<Brokerage, Why> {
        let (amount, code) = cut_brokerage(s).ok_or(Why::Notation)?;
        brokerage_of(amount, code)
    }

    fn check(&self) -> Result<(), Why> {
        if !within(self.agreed(), 1_000_000_000) {
            return Err(Why::Notation);
        }
        Ok(())
    }

    fn write(&self, out: &mut Scratch) {
        write_amount(out, self.agreed(), Scale::Hundredths);
        out.push(b'/');
        out.append(&self.letters());
    }
}
