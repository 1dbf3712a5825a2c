// The trade that a text means.
ghost use Rattle.std.specs.Prelude.{◌≡◌, Ok, Err, MatchResult};
ghost use Rattle.pieces.specs.Rows.{Reads};
ghost use Rattle.trade.specs.Deals.{blank};
ghost use Rattle.trade.specs.Texts.{Text, Answers};
ghost use Rattle.trade.specs.Views.{view, viewed, placed, Taken, Refused};

use crate::rows::{Field, Line, next_field, rows};
use costs::brokerage::Brokerage;
use costs::charges::Charges;
use costs::rebate::Rebate;
use detail::codes::Place;
use detail::detail::Detail;
use fields::parties::{Isin, Parties, read_note};
use fields::terms::{Nature, Price, Quantity, Rate, Side};
use notation::part::Part;
use notation::refusals::{FieldFault, TextFault, Why};
use pieces::contents::Contents;
use walk::reader::Reader;

// A direct trade: a field for each row of the format table, in its order.
#[derive(Clone, Copy, PartialEq, Eq, Debug)]
pub struct Trade<'a> {
    pub nature: Nature,
    pub detail: Detail,
    pub quantity: Quantity,
    pub security: Isin,
    pub price: Price,
    pub parties: Parties,
    pub rebate: Option<Rebate>,
    pub brokerage: Option<Brokerage>,
    pub charges: Option<Charges>,
    // free text of 1 to 30 characters
    pub note: Option<&'a [u8]>,
    // the exchange rate, in hundred-thousandths
    pub rate: Option<u64>,
}

// A fault of contents at their place in the text.
pub(crate) fn placed_at<T>(r: Result<T, Why>, offset: usize) -> Result<T, FieldFault>
    ensures { result ≡ placed r offset }
{
    r.map_err(|why| FieldFault { why, offset })
}

// What a field's contents mean, or their fault at their place in the text.
fn read_part<F: Contents>(part: Part<'_>) -> Result<F, FieldFault>
    ensures { MatchResult result (λ v. Reads F.format part.entry.bytes.now (Ok v)) (λ e. Reads F.format part.entry.bytes.now (Err e.why) × (e.offset ≡ part.entry.at)) }
{
    placed_at(F::read(part.bytes), part.at)
}

impl<'a> Trade<'a> {
    // Reads a field's contents into the trade.
    pub fn set(&mut self, field: Field<'a>) -> Result<(), FieldFault>
        ensures set_or_refused { MatchResult result (λ _. Taken field.entry self.old self.new) (λ e. Refused field.entry e × (self.new ≡ self.old)) }
    {
        match field {
            Field::Nature(p) => self.nature = read_part(p)?,
            Field::Detail(p) => self.detail = read_part(p)?,
            Field::Quantity(p) => self.quantity = read_part(p)?,
            Field::Security(p) => self.security = read_part(p)?,
            Field::Price(p) => self.price = read_part(p)?,
            Field::Parties(p) => self.parties = read_part(p)?,
            Field::Rebate(p) => self.rebate = Some(read_part(p)?),
            Field::Brokerage(p) => self.brokerage = Some(read_part(p)?),
            Field::Charges(p) => self.charges = Some(read_part(p)?),
            Field::Note(p) => self.note = Some(placed_at(read_note(p.bytes), p.at)?),
            Field::Rate(p) => self.rate = Some(u64::from(read_part::<Rate>(p)?)),
        }
        Ok(())
    }
}

// A trade to be read into: each field that must stand is set before it is answered. Fields are handed on one by one, by the rows of
// the table, so there is a trade before they are read.
fn unread<'a>() -> Trade<'a>
    ensures { view result ≡ blank }
{
    let place = Place::Frankfurt;
    let detail = Detail {
        place,
        traded: None,
        time: None,
        closing: None,
        settlement: None,
        new_issue: false,
        interest_days: None,
        discount_days: None,
    };
    Trade {
        nature: Nature {
            side: Side::CounterpartyBuys,
            on_exchange: false,
        },
        detail,
        quantity: Quantity {
            kind: *b"AAA",
            nominal: 0,
        },
        security: Isin {
            bytes: *b"AAAAAAAAAAAA",
        },
        price: Price {
            currency: *b"AAA",
            amount: 0,
        },
        parties: Parties {
            entering: 0,
            counterparty: 0,
        },
        rebate: None,
        brokerage: None,
        charges: None,
        note: None,
        rate: None,
    }
}

// What a text means by the rows.
fn read_rows<'a>(text: &'a [u8], rows: &[Line]) -> Result<Trade<'a>, TextFault>
    ensures { Text rows.now blank text.now 0 (viewed result) }
{
    let mut reader = Reader::new(text);
    let mut trade = unread();
    for row in rows {
        if let Some(field) = next_field(&mut reader, *row)? {
            trade.set(field)?;
        }
    }
    reader.end()?;
    Ok(trade)
}

// The trade that a text means.
pub fn read_trade<'a>(text: &'a [u8]) -> Result<Trade<'a>, TextFault>
    ensures every_text_has_this_answer { Answers text.now (viewed result) }
{
    read_rows(text, &rows())
}
