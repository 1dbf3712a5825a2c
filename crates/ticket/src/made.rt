// A trade from name=value words.
use crate::numbers::{read_date, read_days, read_number, read_signed, read_time, read_units};
use costs::brokerage::Brokerage;
use costs::charges::{Charges, Commission};
use costs::rebate::Rebate;
use detail::codes::{Place, SettlementKind};
use detail::detail::{Detail, Settlement};
use fields::parties::{Isin, Parties};
use fields::terms::{Nature, Price, Quantity, Side};
use pieces::calendar::{Date, Time};
use std::fmt;
use trade::reading::Trade;

// Why no trade can be made of the words.
#[derive(Clone, Copy, PartialEq, Eq, Debug)]
pub enum Slip {
    // line of the words, the first being 1: it is no name=value, or the name is not known
    Name(usize),
    // line of the words: the value is not understood
    Value(usize),
    // this name is needed
    Missing(&'static str),
}

impl fmt::Display for Slip {
    fn fmt<W: fmt::Write>(&self, f: &mut fmt::Formatter<W>) -> fmt::Result {
        match self {
            Slip::Name(line) => write!(f, "word {line} is no name=value with a name that is known"),
            Slip::Value(line) => write!(f, "the value of word {line} is not understood"),
            Slip::Missing(name) => write!(f, "{name} is needed"),
        }
    }
}

// What the words have said so far.
#[derive(Clone, Copy, Default)]
struct Draft<'a> {
    side: Option<Side>,
    on_exchange: bool,
    place: Option<Place>,
    traded: Option<Date>,
    time: Option<Time>,
    closing: Option<Date>,
    settlement: Option<SettlementKind>,
    value_date: Option<Date>,
    new_issue: bool,
    interest_days: Option<i16>,
    discount_days: Option<u16>,
    kind: Option<[u8; 3]>,
    nominal: Option<u64>,
    isin: Option<[u8; 12]>,
    currency: Option<[u8; 3]>,
    price: Option<u64>,
    member: Option<u16>,
    with: Option<u16>,
    discount: Option<u64>,
    bonus: Option<i64>,
    brokerage: Option<Brokerage>,
    expenses: Option<i64>,
    commission: Option<Commission>,
    note: Option<&'a [u8]>,
    rate: Option<u64>,
}

fn read_yes(s: &[u8]) -> Option<bool> {
    match s {
        b"yes" => Some(true),
        b"no" => Some(false),
        _ => None,
    }
}

fn read_side(s: &[u8]) -> Option<Side> {
    match s {
        b"buys" => Some(Side::CounterpartyBuys),
        b"sells" => Some(Side::CounterpartySells),
        _ => None,
    }
}

// By its number or by its name.
fn read_place(s: &[u8]) -> Option<Place> {
    match s {
        b"100" | b"Berlin" => Some(Place::Berlin),
        b"120" | b"Duesseldorf" => Some(Place::Duesseldorf),
        b"130" | b"Frankfurt" => Some(Place::Frankfurt),
        b"140" | b"Hamburg" => Some(Place::Hamburg),
        b"150" | b"Hannover" => Some(Place::Hannover),
        b"160" | b"Munich" => Some(Place::Munich),
        b"170" | b"Stuttgart" => Some(Place::Stuttgart),
        _ => None,
    }
}

fn read_settlement(s: &[u8]) -> Option<SettlementKind> {
    SettlementKind::try_from(s).ok()
}

// So many bytes, neither more nor fewer.
fn read_exactly<const N: usize>(s: &[u8]) -> Option<[u8; N]> {
    s.try_into().ok()
}

fn read_brokerage(s: &[u8]) -> Option<Brokerage> {
    match s {
        b"free" => Some(Brokerage::Free),
        b"free_of_all" => Some(Brokerage::FreeOfAll),
        b"half" => Some(Brokerage::Half),
        _ => read_signed(s, 2).map(Brokerage::Agreed),
    }
}

fn read_commission(s: &[u8]) -> Option<Commission> {
    read_signed(s, 2).map(Commission::Amount)
}

fn read_per_mille(s: &[u8]) -> Option<Commission> {
    read_signed(s, 3).map(Commission::PerMille)
}

impl<'a> Draft<'a> {
    // Takes in the value of the word with this number. One match, since each name has a field and a reader of its own; a table of
    // functions would hand out function values.
    fn set(&mut self, name: &[u8], value: &'a [u8], word: usize) -> Result<(), Slip> {
        let slip = Slip::Value(word);
        match name {
            b"counterparty" => self.side = Some(read_side(value).ok_or(slip)?),
            b"on_exchange" => self.on_exchange = read_yes(value).ok_or(slip)?,
            b"kind" => self.kind = Some(read_exactly(value).ok_or(slip)?),
            b"nominal" => self.nominal = Some(read_units(value, 3).ok_or(slip)?),
            b"isin" => self.isin = Some(read_exactly(value).ok_or(slip)?),
            b"currency" => self.currency = Some(read_exactly(value).ok_or(slip)?),
            b"price" => self.price = Some(read_units(value, 4).ok_or(slip)?),
            b"member" => self.member = Some(read_number(value).ok_or(slip)?),
            b"with" => self.with = Some(read_number(value).ok_or(slip)?),
            b"rate" => self.rate = Some(read_units(value, 5).ok_or(slip)?),
            b"note" => self.note = Some(value),
            b"place" => self.place = Some(read_place(value).ok_or(slip)?),
            b"traded" => self.traded = Some(read_date(value).ok_or(slip)?),
            b"time" => self.time = Some(read_time(value).ok_or(slip)?),
            b"closing" => self.closing = Some(read_date(value).ok_or(slip)?),
            b"settlement" => self.settlement = Some(read_settlement(value).ok_or(slip)?),
            b"value_date" => self.value_date = Some(read_date(value).ok_or(slip)?),
            b"new_issue" => self.new_issue = read_yes(value).ok_or(slip)?,
            b"interest_days" => self.interest_days = Some(read_days(value).ok_or(slip)?),
            b"discount_days" => self.discount_days = Some(read_number(value).ok_or(slip)?),
            b"discount" => self.discount = Some(read_units(value, 2).ok_or(slip)?),
            b"bonus" => self.bonus = Some(read_signed(value, 3).ok_or(slip)?),
            b"brokerage" => self.brokerage = Some(read_brokerage(value).ok_or(slip)?),
            b"expenses" => self.expenses = Some(read_signed(value, 2).ok_or(slip)?),
            b"commission" => self.commission = Some(read_commission(value).ok_or(slip)?),
            b"commission_per_mille" => self.commission = Some(read_per_mille(value).ok_or(slip)?),
            _ => return Err(Slip::Name(word)),
        }
        Ok(())
    }

    // A value date needs to say how it is settled, and the other way round.
    fn settlement(&self) -> Result<Option<Settlement>, Slip> {
        match (self.settlement, self.value_date) {
            (Some(kind), Some(value_date)) => Ok(Some(Settlement { kind, value_date })),
            (None, None) => Ok(None),
            (Some(_), None) => Err(Slip::Missing("value_date")),
            (None, Some(_)) => Err(Slip::Missing("settlement")),
        }
    }

    fn detail(&self) -> Result<Detail, Slip> {
        Ok(Detail {
            place: needed(self.place, "place")?,
            traded: self.traded,
            time: self.time,
            closing: self.closing,
            settlement: self.settlement()?,
            new_issue: self.new_issue,
            interest_days: self.interest_days,
            discount_days: self.discount_days,
        })
    }

    // Nothing where neither piece is given; charges likewise. What they share is one condition over fields of two types.
    fn rebate(&self) -> Option<Rebate> {
        if self.discount.is_none() && self.bonus.is_none() {
            return None;
        }
        Some(Rebate {
            discount: self.discount,
            bonus: self.bonus,
        })
    }

    fn charges(&self) -> Option<Charges> {
        if self.expenses.is_none() && self.commission.is_none() {
            return None;
        }
        Some(Charges {
            expenses: self.expenses,
            commission: self.commission,
        })
    }

    fn trade(&self) -> Result<Trade<'a>, Slip> {
        let nature = Nature {
            side: needed(self.side, "counterparty")?,
            on_exchange: self.on_exchange,
        };
        let detail = self.detail()?;
        let quantity = Quantity {
            kind: needed(self.kind, "kind")?,
            nominal: needed(self.nominal, "nominal")?,
        };
        let security = Isin {
            bytes: needed(self.isin, "isin")?,
        };
        let price = Price {
            currency: needed(self.currency, "currency")?,
            amount: needed(self.price, "price")?,
        };
        let parties = Parties {
            entering: needed(self.member, "member")?,
            counterparty: needed(self.with, "with")?,
        };
        Ok(Trade {
            nature,
            detail,
            quantity,
            security,
            price,
            parties,
            rebate: self.rebate(),
            brokerage: self.brokerage,
            charges: self.charges(),
            note: self.note,
            rate: self.rate,
        })
    }
}

// A value that must have been given.
fn needed<T: Copy>(value: Option<T>, name: &'static str) -> Result<T, Slip> {
    value.ok_or(Slip::Missing(name))
}

// The trade that the words say, one word a line; empty lines are passed over.
pub fn make_trade<'a>(words: &'a [u8]) -> Result<Trade<'a>, Slip> {
    let mut made = Draft::default();
    let given = words.split(|b| *b == b'\n').filter(|word| !word.is_empty());
    for (i, word) in given.enumerate() {
        take_word(&mut made, word, i.saturating_add(1))?;
    }
    made.trade()
}

fn take_word<'a>(made: &mut Draft<'a>, word: &'a [u8], count: usize) -> Result<(), Slip> {
    let mut parts = word.splitn(2, |b| *b == b'=');
    match (parts.next(), parts.next()) {
        (Some(name), Some(value)) => made.set(name, value, count),
        _ => Err(Slip::Name(count)),
    }
}
