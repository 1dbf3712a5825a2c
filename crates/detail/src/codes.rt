// The codes of field 31P: exchanges, and how a fixed value date is settled.
ghost use Rattle.std.specs.Prelude.{◌≡◌, MatchResult, Some};
ghost use Rattle.detail.specs.Words.{place_words, settlement_words};
ghost use Rattle.detail.specs.Codes.{place_number, kind_letters};
ghost use Rattle.detail.specs.Reading.{PlaceOf, KindOf, MarkOf, Settled, Coded, Unlisted};
ghost use Rattle.detail_cut.specs.Form.{seen, value_of};

use detail_cut::cut::DetailPieces;
use notation::refusals::Why;
use std::fmt;

// The exchange at which a trade was made.
#[derive(Clone, Copy, PartialEq, Eq, Debug)]
pub enum Place {
    // 100
    Berlin,
    // 120
    Duesseldorf,
    // 130
    Frankfurt,
    // 140
    Hamburg,
    // 150
    Hannover,
    // 160
    Munich,
    // 170
    Stuttgart,
}

// How a trade with a fixed value date is settled.
#[derive(Clone, Copy, PartialEq, Eq, Debug)]
pub enum SettlementKind {
    // FO: its countervalue is not cleared
    WithoutCountervalue,
    // FV: its countervalue is cleared
    WithCountervalue,
    // FZ: delivery against payment
    AgainstPayment,
}

impl fmt::Display for Place {
    ghost output = { λ p. Some (place_words p) };

    fn fmt<W: fmt::Write>(&self, f: &mut fmt::Formatter<W>) -> fmt::Result {
        f.write_str(match self {
            Place::Berlin => "Berlin (100)",
            Place::Duesseldorf => "Duesseldorf (120)",
            Place::Frankfurt => "Frankfurt (130)",
            Place::Hamburg => "Hamburg (140)",
            Place::Hannover => "Hannover (150)",
            Place::Munich => "Munich (160)",
            Place::Stuttgart => "Stuttgart (170)",
        })
    }
}

impl fmt::Display for SettlementKind {
    ghost output = { λ k. Some (settlement_words k) };

    fn fmt<W: fmt::Write>(&self, f: &mut fmt::Formatter<W>) -> fmt::Result {
        f.write_str(match self {
            SettlementKind::WithoutCountervalue => "FO, countervalue not cleared",
            SettlementKind::WithCountervalue => "FV, countervalue cleared",
            SettlementKind::AgainstPayment => "FZ, delivery against payment",
        })
    }
}

impl TryFrom<u32> for Place {
    type Error = Why;

    ghost try_from_gives = { PlaceOf };

    fn try_from(number: u32) -> Result<Place, Why> {
        match number {
            100 => Ok(Place::Berlin),
            120 => Ok(Place::Duesseldorf),
            130 => Ok(Place::Frankfurt),
            140 => Ok(Place::Hamburg),
            150 => Ok(Place::Hannover),
            160 => Ok(Place::Munich),
            170 => Ok(Place::Stuttgart),
            _ => Err(Why::Code),
        }
    }
}

impl From<Place> for u32 {
    ghost from_gives = { λ place n. n ≡ place_number place };

    fn from(place: Place) -> u32 {
        match place {
            Place::Berlin => 100,
            Place::Duesseldorf => 120,
            Place::Frankfurt => 130,
            Place::Hamburg => 140,
            Place::Hannover => 150,
            Place::Munich => 160,
            Place::Stuttgart => 170,
        }
    }
}

impl TryFrom<&[u8]> for SettlementKind {
    type Error = Why;

    ghost try_from_gives = { λ code r. KindOf code.now r };

    fn try_from(code: &[u8]) -> Result<SettlementKind, Why> {
        match code {
            b"FO" => Ok(SettlementKind::WithoutCountervalue),
            b"FV" => Ok(SettlementKind::WithCountervalue),
            b"FZ" => Ok(SettlementKind::AgainstPayment),
            _ => Err(Why::Code),
        }
    }
}

impl From<SettlementKind> for [u8; 2] {
    ghost from_gives = { λ kind letters. letters ≡ kind_letters kind };

    fn from(kind: SettlementKind) -> [u8; 2] {
        match kind {
            SettlementKind::WithoutCountervalue => *b"FO",
            SettlementKind::WithCountervalue => *b"FV",
            SettlementKind::AgainstPayment => *b"FZ",
        }
    }
}

// Whether the mark of a new issue stands. Field 23 has the like over copied letters and another code.
fn marked(mark: Option<&[u8]>) -> Result<bool, Why>
    ensures { MarkOf (seen mark.entry) result }
{
    match mark {
        None => Ok(false),
        Some(b"EM") => Ok(true),
        Some(_) => Err(Why::Code),
    }
}

// What the codes of a field say.
#[derive(Clone, Copy, PartialEq, Eq, Debug)]
pub(crate) struct Codes {
    pub(crate) place: Place,
    // and the value date's digits
    pub(crate) settlement: Option<(SettlementKind, u32)>,
    pub(crate) new_issue: bool,
}

// How a trade is settled that has a code and the digits of a value date.
fn settled(coded: (&[u8], u32)) -> Result<(SettlementKind, u32), Why>
    ensures { Settled (coded.entry.0.now, coded.entry.1) result }
{
    Ok((SettlementKind::try_from(coded.0)?, coded.1))
}

// The codes of the pieces, if all of them are listed.
pub(crate) fn codes_of(pieces: &DetailPieces<'_>) -> Result<Codes, Why>
    ensures { MatchResult result (Coded (value_of pieces.now)) (Unlisted (value_of pieces.now)) }
{
    let place = Place::try_from(pieces.place)?;
    let settlement = pieces.settlement.map(settled).transpose()?;
    let new_issue = marked(pieces.mark)?;
    Ok(Codes {
        place,
        settlement,
        new_issue,
    })
}
