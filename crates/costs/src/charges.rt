// Field 71D: expenses and commission.
ghost use Rattle.std.specs.Prelude.{◌≡◌, ◌^◌, ◌<◌, ◌||◌, List, ℕ, is_some};
ghost use Rattle.costs.specs.Amounts.{Measures};
ghost use Rattle.costs.specs.Costs.{row71d, GivesCommission, CutCharges, Told, Limits, commission_pieces};
ghost use Rattle.fields.specs.Table.{commission as commission_form};
ghost use Rattle.pieces.specs.Notation.{print};
ghost use Rattle.pieces.specs.Scratches.{Grown};

use crate::amounts::{signed, signed_decimal, take_amount, within, write_amount, write_signed};
use fields::codes::optional;
use notation::classes::Class;
use notation::refusals::Why;
use pieces::contents::Contents;
use pieces::cuts::{after, front_of};
use pieces::decimals::{Decimal, Scale};
use pieces::scratch::Scratch;

#[derive(Clone, Copy, PartialEq, Eq, Debug)]
pub struct Charges {
    // in hundredths
    pub expenses: Option<i64>,
    pub commission: Option<Commission>,
}

#[derive(Clone, Copy, PartialEq, Eq, Debug)]
pub enum Commission {
    // PD: an amount, in hundredths
    Amount(i64),
    // PM: per mille, in thousandths
    PerMille(i64),
}

// After PD at most two fraction digits stand, after PM at most two whole ones.
fn commission_of(code: &[u8], d: Decimal, negative: bool) -> Result<Commission, Why>
    requires { d.units < 2 ^ 63 }
    ensures { (w : List ℕ × List ℕ) → Measures 3 d w → Told (code.now, (w, negative)) result }
{
    match code {
        b"PD" => {
            if d.fraction > 2 {
                return Err(Why::Pieces);
            }
            Ok(Commission::Amount(signed(d.units / 10, negative)))
        }
        b"PM" => {
            if d.whole > 2 {
                return Err(Why::Pieces);
            }
            Ok(Commission::PerMille(signed(d.units, negative)))
        }
        _ => Err(Why::Code),
    }
}

// A slash, a code and a decimal: the commission, or what is wrong with it.
fn read_commission(s: &[u8]) -> Option<Result<Commission, Why>>
    ensures { GivesCommission s.now result }
{
    let (code, rest) = front_of(after(s, b'/')?, 2, Class::Capital)?;
    let (d, negative) = signed_decimal(rest, 7, Scale::Thousandths)?;
    Some(commission_of(code, d, negative))
}

fn cut_charges(s: &[u8]) -> Option<(Option<i64>, Option<Result<Commission, Why>>)>
    ensures { CutCharges s.now result }
{
    if s.is_empty() {
        return None;
    }
    let (expenses, rest) = take_amount(s)?;
    Some((expenses, optional(rest, read_commission(rest))?))
}

fn write_commission(out: &mut Scratch, commission: Commission)
    ensures { Grown out.old out.new (print commission_form (commission_pieces commission)) }
{
    match commission {
        Commission::Amount(z) => {
            out.append(b"PD");
            write_signed(out, z, Scale::Hundredths);
        }
        Commission::PerMille(z) => {
            out.append(b"PM");
            write_signed(out, z, Scale::Thousandths);
        }
    }
}

// How large a commission may be: what its notation holds, and after PM its width.
fn limits(commission: Option<Commission>) -> Result<(), Why>
    ensures { Limits commission result }
{
    match commission {
        None => Ok(()),
        Some(Commission::Amount(z)) => if z.unsigned_abs() < 1_000_000_000 {
            Ok(())
        } else {
            Err(Why::Notation)
        },
        Some(Commission::PerMille(z)) => {
            if z.unsigned_abs() >= 10_000_000_000 {
                return Err(Why::Notation);
            }
            if z.unsigned_abs() >= 100_000 {
                return Err(Why::Pieces);
            }
            Ok(())
        }
    }
}

impl Charges {
    // Whether they have a piece.
    fn stand(&self) -> bool
        ensures { result ≡ (is_some self.now.expenses || is_some self.now.commission) }
    {
        self.expenses.is_some() || self.commission.is_some()
    }
}

impl Contents for Charges {
    ghost format = { row71d };

    fn read(s: &[u8]) -> Result<Charges, Why> {
        let (expenses, commission) = cut_charges(s).ok_or(Why::Notation)?;
        let commission = commission.transpose()?;
        Ok(Charges {
            expenses,
            commission,
        })
    }

    fn check(&self) -> Result<(), Why> {
        if !self.stand() {
            return Err(Why::Notation);
        }
        if !within(self.expenses, 1_000_000_000) {
            return Err(Why::Notation);
        }
        limits(self.commission)
    }

    fn write(&self, out: &mut Scratch) {
        write_amount(out, self.expenses, Scale::Hundredths);
        if let Some(commission) = self.commission {
            out.push(b'/');
            write_commission(out, commission);
        }
    }
}
