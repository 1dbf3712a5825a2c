// The eight pieces of field 31P. All but the place are optional, and runs of digits are told apart by their length alone:
// before another piece they have 0, 4, 6 or 10 digits, and at the end 0, 3, 4, 6, 7, 9, 10 or 13.
ghost use Rattle.detail_cut.specs.Form.{slash_date, coded_date, slash_coded_date, signed_days, detail_form, seen_coded_rest, seen_pieces, Taken};
ghost use Rattle.detail_cut.specs.Runs.{RunsToEnd, RunsLate};
ghost use Rattle.pieces.specs.Cuts.{Front, Takes, seen_rest};
ghost use Rattle.pieces.specs.Notation.{Finds, number, sign, opt};

use notation::classes::Class;
use pieces::cuts::{after, front_number, front_of, leading_digits};

// The pieces as they stand: numbers of digits, and codes of two capital letters.
#[derive(Clone, Copy, PartialEq, Eq, Debug)]
pub struct DetailPieces<'a> {
    pub place: u32,
    pub traded: Option<u32>,
    pub time: Option<u32>,
    pub closing: Option<u32>,
    // code and value date
    pub settlement: Option<(&'a [u8], u32)>,
    pub mark: Option<&'a [u8]>,
    // whether a minus stands, and how many: a pair, since here -000 is not yet the same as +000
    pub interest: Option<(bool, u32)>,
    pub discount: Option<u32>,
}

// A slash and a date of six digits at the front.
fn front_slash_date(s: &[u8]) -> Option<(u32, &[u8])>
    ensures { Front slash_date s.now (seen_rest result) }
{
    front_number(after(s, b'/')?, 6)
}

// Two capital letters and a date at the front.
fn front_coded_date(s: &[u8]) -> Option<((&[u8], u32), &[u8])>
    ensures { Front coded_date s.now (seen_coded_rest result) }
{
    let (code, rest) = front_of(s, 2, Class::Capital)?;
    let (date, rest) = front_number(rest, 6)?;
    Some(((code, date), rest))
}

// A slash, two capital letters and a date at the front.
fn front_slash_coded_date(s: &[u8]) -> Option<((&[u8], u32), &[u8])>
    ensures { Front slash_coded_date s.now (seen_coded_rest result) }
{
    front_coded_date(after(s, b'/')?)
}

// A plus or a minus at the front: whether it is a minus.
fn front_sign(s: &[u8]) -> Option<(bool, &[u8])>
    ensures { Front sign s.now (seen_rest result) }
{
    match s {
        [b'-', rest @ ..] => Some((true, rest)),
        [b'+', rest @ ..] => Some((false, rest)),
        _ => None,
    }
}

// A sign and three digits at the front.
#[tactic(auto, using(pieces::proofs::Forms::both_second, pieces::proofs::Forms::sized_sign))]
fn front_days(s: &[u8]) -> Option<((bool, u32), &[u8])>
    ensures { Front signed_days s.now (seen_rest result) }
{
    let (minus, rest) = front_sign(s)?;
    let (days, rest) = front_number(rest, 3)?;
    Some(((minus, days), rest))
}

// A piece that may be left out: what stands in front and the rest, or nothing and all.
fn taken<'a, T: Drop>(s: &'a [u8], front: Option<(T, &'a [u8])>) -> (Option<T>, &'a [u8])
    ensures { Taken s.now (seen_rest front.entry) result.0 result.1.now }
{
    front.map_or((None, s), |(piece, rest)| (Some(piece), rest))
}

// A time stands where the run of digits leaves 0, 3, 6 or 9 behind it.
fn take_time(s: &[u8]) -> (Option<u32>, &[u8])
    ensures { Takes (opt (number 4)) RunsLate s.now result.0 result.1.now }
{
    match leading_digits(s) {
        4 | 7 | 10 | 13 => taken(s, front_number(s, 4)),
        _ => (None, s),
    }
}

// A closing date stands where the run of digits leaves 0 or 3 behind it.
fn take_closing(s: &[u8]) -> (Option<u32>, &[u8])
    ensures { Takes (opt (number 6)) RunsToEnd s.now result.0 result.1.now }
{
    match leading_digits(s) {
        6 | 9 => taken(s, front_number(s, 6)),
        _ => (None, s),
    }
}

// The pieces of contents that fit the notation.
pub fn cut_detail(s: &[u8]) -> Option<DetailPieces<'_>>
    ensures as_they_stand { Finds detail_form s.now (seen_pieces result) }
{
    let (place, rest) = front_number(s, 3)?;
    let (traded, rest) = taken(rest, front_slash_date(rest));
    let (time, rest) = take_time(rest);
    let (closing, rest) = take_closing(rest);
    let (settlement, rest) = taken(rest, front_slash_coded_date(rest));
    let (mark, rest) = taken(rest, front_of(rest, 2, Class::Capital));
    let (interest, rest) = taken(rest, front_days(rest));
    let (discount, rest) = taken(rest, front_number(rest, 3));
    if !rest.is_empty() {
        return None;
    }
    Some(DetailPieces {
        place,
        traded,
        time,
        closing,
        settlement,
        mark,
        interest,
        discount,
    })
}
