// The details of a trade.
ghost use Rattle.std.specs.Prelude.{◌≡◌, ◌<◌, MatchResult};
ghost use Rattle.detail.specs.Detail.{row31p, IfThere, settlement_in, days_of};
ghost use Rattle.detail.specs.Reading.{coded, DateAt, TimeAt, SettlementAt, Timed, Untimed};
ghost use Rattle.detail_cut.specs.Form.{detail_form, value_of};
ghost use Rattle.pieces.specs.Notation.{Proper};
ghost use Rattle.pieces.specs.Plain.{signed};
ghost use Rattle.pieces.specs.Rows.{Reads};
ghost use Rattle.std.specs.Option.{option_map};

use crate::codes::{Codes, Place, SettlementKind, codes_of};
use detail_cut::cut::{DetailPieces, cut_detail};
use notation::refusals::Why;
use pieces::calendar::{Date, Time, date_of, time_of};

// A fixed value date.
#[derive(Clone, Copy, PartialEq, Eq, Debug)]
pub struct Settlement {
    pub kind: SettlementKind,
    pub value_date: Date,
}

// Field 31P. Zero days are not the same as none.
#[derive(Clone, Copy, PartialEq, Eq, Debug)]
pub struct Detail {
    pub place: Place,
    pub traded: Option<Date>,
    pub time: Option<Time>,
    // where it is another day than the exchange would take
    pub closing: Option<Date>,
    pub settlement: Option<Settlement>,
    // EM
    pub new_issue: bool,
    pub interest_days: Option<i16>,
    pub discount_days: Option<u16>,
}

// What the dates and the time of a field say.
#[derive(Clone, Copy, PartialEq, Eq, Debug)]
struct Moments {
    traded: Option<Date>,
    time: Option<Time>,
    closing: Option<Date>,
    settlement: Option<Settlement>,
}

// Dates and times are two types, whose readers are two functions; each of these is one line over its own.
fn date_at(n: u32) -> Result<Date, Why>
    ensures { DateAt n result }
{
    date_of(n).ok_or(Why::Moment)
}

fn time_at(n: u32) -> Result<Time, Why>
    ensures { TimeAt n result }
{
    time_of(n).ok_or(Why::Moment)
}

fn settlement_at(coded: (SettlementKind, u32)) -> Result<Settlement, Why>
    ensures { SettlementAt coded result }
{
    let value_date = date_at(coded.1)?;
    Ok(Settlement {
        kind: coded.0,
        value_date,
    })
}

// The dates and the time of the pieces, if all of them exist.
fn moments_of(pieces: &DetailPieces<'_>, codes: &Codes) -> Result<Moments, Why>
    requires digits { Proper detail_form (value_of pieces.now) }
    requires same { settlement_in (value_of pieces.now) ≡ option_map coded codes.now.settlement }
    ensures { MatchResult result (Timed (value_of pieces.now) codes.now.settlement) (Untimed (value_of pieces.now)) }
{
    let traded = pieces.traded.map(date_at).transpose()?;
    let time = pieces.time.map(time_at).transpose()?;
    let closing = pieces.closing.map(date_at).transpose()?;
    let settlement = codes.settlement.map(settlement_at).transpose()?;
    Ok(Moments {
        traded,
        time,
        closing,
        settlement,
    })
}

fn days(minus: bool, n: u32) -> i16
    requires three_digits { n < 1000 }
    ensures { result ≡ signed n minus }
{
    if minus { -(n as i16) } else { n as i16 }
}

// From the pair of the pieces: a size and whether a minus stands.
fn interest_of(piece: Option<(bool, u32)>) -> Option<i16>
    requires three_digits { IfThere (λ x. x.1 < 1000) piece }
    ensures { result ≡ option_map days_of piece }
{
    piece.map(|(minus, n)| days(minus, n))
}

fn discount_of(piece: Option<u32>) -> Option<u16>
    requires three_digits { IfThere (λ n. n < 1000) piece }
    ensures { result ≡ piece }
{
    piece.map(|n| n as u16)
}

// Reads the contents of field 31P.
pub(crate) fn read_detail(s: &[u8]) -> Result<Detail, Why>
    ensures { Reads row31p s.now result }
{
    let pieces = cut_detail(s).ok_or(Why::Notation)?;
    let codes = codes_of(&pieces)?;
    let moments = moments_of(&pieces, &codes)?;
    Ok(Detail {
        place: codes.place,
        traded: moments.traded,
        time: moments.time,
        closing: moments.closing,
        settlement: moments.settlement,
        new_issue: codes.new_issue,
        interest_days: interest_of(pieces.interest),
        discount_days: discount_of(pieces.discount),
    })
}
