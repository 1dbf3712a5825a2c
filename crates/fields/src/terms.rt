// The terms of a trade: its nature (field 23), quantity (35A), price (33T) and exchange rate (36).
ghost use Rattle.std.specs.Prelude.{◌≡◌};
ghost use Rattle.fields.specs.Codes.{Sees, SideOf, MarkOf};
ghost use Rattle.fields.specs.Table.{nature_form};
ghost use Rattle.fields.specs.Terms.{side_number, row23, row35a, row33t, row36};
ghost use Rattle.pieces.specs.Notation.{Finds};

use crate::codes::{check_coded, optional_code, read_coded, write_coded};
use notation::refusals::Why;
use pieces::contents::Contents;
use pieces::cuts::front_number;
use pieces::decimals::{Scale, read_decimal};
use pieces::scratch::Scratch;
use std::marker::Model;

// What the counterparty does.
#[derive(Clone, Copy, PartialEq, Eq, Debug)]
pub enum Side {
    // 012
    CounterpartyBuys,
    // 022
    CounterpartySells,
}

// Field 23.
#[derive(Clone, Copy, PartialEq, Eq, Debug)]
pub struct Nature {
    pub side: Side,
    // BS: made on exchange, not over the counter
    pub on_exchange: bool,
}

// Field 35A.
#[derive(Clone, Copy, PartialEq, Eq, Debug)]
pub struct Quantity {
    // three capital letters, as SHS for shares
    pub kind: [u8; 3],
    // in thousandths
    pub nominal: u64,
}

// Field 33T.
#[derive(Clone, Copy, PartialEq, Eq, Debug)]
pub struct Price {
    // three capital letters
    pub currency: [u8; 3],
    // in ten-thousandths
    pub amount: u64,
}

// Field 36: an exchange rate.
#[derive(Clone, Copy, PartialEq, Eq, Debug)]
pub struct Rate {
    // in hundred-thousandths
    units: u64,
}

// It is seen as the number that it is.
impl Model for Rate {
    ghost use Rattle.std.specs.Prelude.{ℕ};

    ghost Value = { ℕ };

    ghost view = { λ r. r.units };

    ghost inverse = { λ n. record { units = n } };
}

impl From<u64> for Rate {
    ghost from_gives = { λ n r. r ≡ n };

    fn from(units: u64) -> Rate {
        Rate { units }
    }
}

impl From<Rate> for u64 {
    ghost from_gives = { λ r n. n ≡ r };

    fn from(rate: Rate) -> u64 {
        rate.units
    }
}

fn cut_nature(s: &[u8]) -> Option<(u32, Option<[u8; 2]>)>
    ensures { Finds nature_form s.now result }
{
    let (side, rest) = front_number(s, 3)?;
    Some((side, optional_code(rest)?))
}

impl TryFrom<u32> for Side {
    type Error = Why;

    ghost try_from_gives = { SideOf };

    fn try_from(number: u32) -> Result<Side, Why> {
        match number {
            12 => Ok(Side::CounterpartyBuys),
            22 => Ok(Side::CounterpartySells),
            _ => Err(Why::Code),
        }
    }
}

impl From<Side> for u32 {
    ghost from_gives = { λ side n. n ≡ side_number side };

    fn from(side: Side) -> u32 {
        match side {
            Side::CounterpartyBuys => 12,
            Side::CounterpartySells => 22,
        }
    }
}

// Whether a code says that the trade was made on exchange. Field 31P has the like over borrowed bytes and another code; a function of
// both would name neither.
fn marked(code: Option<[u8; 2]>) -> Result<bool, Why>
    ensures { MarkOf code result }
{
    match code {
        None => Ok(false),
        Some(letters) if letters == *b"BS" => Ok(true),
        Some(_) => Err(Why::Code),
    }
}

impl Contents for Nature {
    ghost format = { row23 };

    fn read(s: &[u8]) -> Result<Nature, Why> {
        let (number, code) = cut_nature(s).ok_or(Why::Notation)?;
        let side = Side::try_from(number)?;
        let on_exchange = marked(code)?;
        Ok(Nature { side, on_exchange })
    }

    fn check(&self) -> Result<(), Why> {
        Ok(()) // every nature can be written
    }

    fn write(&self, out: &mut Scratch) {
        out.digits(3, u32::from(self.side));
        if self.on_exchange {
            out.append(b"/BS");
        }
    }
}

// What Quantity and Price share stands in codes; their fields have names of their own, and different widths and scales.
impl Contents for Quantity {
    ghost format = { row35a };

    fn read(s: &[u8]) -> Result<Quantity, Why> {
        let (kind, nominal) = read_coded(s, 9, Scale::Thousandths)?;
        Ok(Quantity { kind, nominal })
    }

    fn check(&self) -> Result<(), Why> {
        check_coded(&self.kind, self.nominal, 9, Scale::Thousandths)
    }

    fn write(&self, out: &mut Scratch) {
        write_coded(out, &self.kind, self.nominal, Scale::Thousandths);
    }
}

impl Contents for Price {
    ghost format = { row33t };

    fn read(s: &[u8]) -> Result<Price, Why> {
        let (currency, amount) = read_coded(s, 6, Scale::TenThousandths)?;
        Ok(Price { currency, amount })
    }

    fn check(&self) -> Result<(), Why> {
        check_coded(&self.currency, self.amount, 6, Scale::TenThousandths)
    }

    fn write(&self, out: &mut Scratch) {
        write_coded(out, &self.currency, self.amount, Scale::TenThousandths);
    }
}

fn cut_rate(s: &[u8]) -> Option<Rate>
    ensures { Sees row36 s.now result }
{
    read_decimal(s, 5, Scale::HundredThousandths).map(|d| Rate { units: d.units })
}

impl Contents for Rate {
    ghost format = { row36 };

    fn read(s: &[u8]) -> Result<Rate, Why> {
        cut_rate(s).ok_or(Why::Notation)
    }

    fn check(&self) -> Result<(), Why> {
        let limit: u64 = 10_000_000_000;
        if self.units >= limit {
            return Err(Why::Notation);
        }
        Ok(())
    }

    fn write(&self, out: &mut Scratch) {
        out.decimal(self.units, Scale::HundredThousandths);
    }
}
