// Field 71B: rebates.
ghost use Rattle.std.specs.Prelude.{◌≡◌, ◌<◌, ◌||◌, is_some, Decides};
ghost use Rattle.costs.specs.Amounts.{signed_units, slash_bonus, WithinPlain};
ghost use Rattle.costs.specs.Costs.{row71b};
ghost use Rattle.fields.specs.Codes.{Gives, Sees};
ghost use Rattle.pieces.specs.Notation.{print, opt, dec, units};
ghost use Rattle.pieces.specs.Plain.{plain};
ghost use Rattle.pieces.specs.Scratches.{Grown};
ghost use Rattle.std.specs.Option.{option_map};

use crate::amounts::{signed, signed_decimal, within, write_signed};
use fields::codes::optional;
use notation::refusals::Why;
use pieces::contents::Contents;
use pieces::cuts::{after, split_slash};
use pieces::decimals::{Scale, read_decimal};
use pieces::scratch::Scratch;

#[derive(Clone, Copy, PartialEq, Eq, Debug)]
pub struct Rebate {
    // on money that is invested again, in hundredths
    pub discount: Option<u64>,
    // in thousandths of a percent
    pub bonus: Option<i64>,
}

fn read_discount(s: &[u8]) -> Option<u64>
    ensures { Gives (dec 7 2) (units 2) s.now result }
{
    read_decimal(s, 7, Scale::Hundredths).map(|d| d.units)
}

// A bonus stands behind a slash.
fn read_bonus(s: &[u8]) -> Option<i64>
    ensures { Gives slash_bonus (signed_units 3) s.now result }
{
    let (d, negative) = signed_decimal(after(s, b'/')?, 2, Scale::Thousandths)?;
    Some(signed(d.units, negative))
}

fn cut_rebate(s: &[u8]) -> Option<Rebate>
    ensures { Sees row71b s.now result }
{
    if s.is_empty() {
        return None;
    }
    let (head, tail) = split_slash(s);
    let discount = optional(head, read_discount(head))?;
    let bonus = optional(tail, read_bonus(tail))?;
    Some(Rebate { discount, bonus })
}

// The sizes here are u64, those of `within` i64: one function for both would take a map to sizes at each of its other calls.
fn small(discount: Option<u64>) -> bool
    ensures { Decides result (WithinPlain 1000000000 discount) }
{
    discount.is_none_or(|n| n < 1_000_000_000)
}

// A discount has no sign, so it is not an amount: one function for both would take how a size is written, with this contract on it.
fn write_discount(out: &mut Scratch, discount: Option<u64>)
    ensures { Grown out.old out.new (print (opt (dec 0 0)) (option_map (plain 2) discount)) }
{
    if let Some(n) = discount {
        out.decimal(n, Scale::Hundredths);
    }
}

impl Rebate {
    // Whether it has a piece. Charges ask the same of other fields; a function of two Options would name neither.
    fn stands(&self) -> bool
        ensures { result ≡ (is_some self.now.discount || is_some self.now.bonus) }
    {
        self.discount.is_some() || self.bonus.is_some()
    }
}

impl Contents for Rebate {
    ghost format = { row71b };

    fn read(s: &[u8]) -> Result<Rebate, Why> {
        cut_rebate(s).ok_or(Why::Notation)
    }

    fn check(&self) -> Result<(), Why> {
        if !self.stands() {
            return Err(Why::Notation);
        }
        if !small(self.discount) {
            return Err(Why::Notation);
        }
        if !within(self.bonus, 100_000) {
            return Err(Why::Notation);
        }
        Ok(())
    }

    fn write(&self, out: &mut Scratch) {
        write_discount(out, self.discount);
        if let Some(bonus) = self.bonus {
            out.push(b'/');
            write_signed(out, bonus, Scale::Thousandths);
        }
    }
}
