// Amounts that may be left out and may be negative.
ghost use Rattle.std.specs.Prelude.{◌≡◌, ℕ, ◌^◌, ◌<◌, min, List, ◌∷◌, Decides, MatchOption};
ghost use Rattle.costs.specs.Amounts.{Follows, SignedDecimal, TakesAmount, Within, signed_pieces};
ghost use Rattle.fields.specs.Table.{minus};
ghost use Rattle.pieces.specs.Cuts.{Takes, Stops, NotSlash};
ghost use Rattle.pieces.specs.Notation.{Finds, print, both, dec, opt};
ghost use Rattle.pieces.specs.Plain.{places, signed, negative};
ghost use Rattle.pieces.specs.Scratches.{Grown};
ghost use Rattle.std.specs.Option.{option_map};

use pieces::cuts::split_slash;
use pieces::decimals::{Decimal, Scale, read_decimal};
use pieces::scratch::Scratch;

// Whether contents are `/N`, or nothing.
fn read_minus(s: &[u8]) -> Option<bool>
    ensures { Finds minus s.now result }
{
    match s {
        b"" => Some(false),
        b"/N" => Some(true),
        _ => None,
    }
}

// A decimal of at most so many whole digits, and whether `/N` follows. A pair, as the notation's own value is, since a
// commission is cut to its scale before it has a sign.
pub(crate) fn signed_decimal(s: &[u8], whole: usize, scale: Scale) -> Option<(Decimal, bool)>
    ensures { SignedDecimal (min whole 13) (places scale) s.now result }
{
    let (head, tail) = split_slash(s);
    let d = read_decimal(head, whole, scale)?;
    let negative = read_minus(tail)?;
    Some((d, negative))
}

// What follows `/N`, if it is nothing or another piece: `/NA` is a code.
fn after_minus(s: &[u8]) -> Option<&[u8]>
    ensures { MatchOption result ((t : List ℕ) → s.now ≡ 47 ∷ 78 ∷ t → Stops NotSlash t → ⊥) (λ t. (s.now ≡ 47 ∷ 78 ∷ t.now) × Stops NotSlash t.now) }
{
    let rest = s.strip_prefix(b"/N")?;
    matches!(rest, [] | [b'/', ..]).then_some(rest)
}

// Whether `/N` stands in front of a piece or the end, and what follows. By map_or it was tried, and the proof did not close.
fn take_minus(s: &[u8]) -> (bool, &[u8])
    ensures { Takes minus Follows s.now result.0 result.1.now }
{
    match after_minus(s) {
        Some(rest) => (true, rest),
        None => (false, s),
    }
}

// An amount of money at the front, if one stands there, and the rest.
pub(crate) fn take_amount(s: &[u8]) -> Option<(Option<i64>, &[u8])>
    ensures { TakesAmount s.now result }
{
    let (head, tail) = split_slash(s);
    if head.is_empty() {
        return Some((None, s));
    }
    let d = read_decimal(head, 7, Scale::Hundredths)?;
    let (negative, rest) = take_minus(tail);
    Some((Some(signed(d.units, negative)), rest))
}

pub(crate) fn signed(size: u64, negative: bool) -> i64
    requires { size < 2 ^ 63 }
    ensures { result ≡ signed size negative }
{
    if negative {
        -(size as i64)
    } else {
        size as i64
    }
}

// Whether an amount is left out, or its size is below the limit.
pub(crate) fn within(amount: Option<i64>, limit: u64) -> bool
    ensures { Decides result (Within limit amount) }
{
    amount.is_none_or(|z| z.unsigned_abs() < limit)
}

fn write_minus(out: &mut Scratch, z: i64)
    ensures { Grown out.old out.new (print minus (negative z)) }
{
    if z < 0 {
        out.append(b"/N");
    }
}

// Writes an amount: `/N` follows where it is negative.
pub(crate) fn write_signed(out: &mut Scratch, z: i64, scale: Scale)
    ensures { Grown out.old out.new (print (both (dec 0 0) minus) (signed_pieces (places scale) z)) }
{
    out.decimal(z.unsigned_abs(), scale);
    write_minus(out, z);
}

// Writes an amount that is there.
pub(crate) fn write_amount(out: &mut Scratch, amount: Option<i64>, scale: Scale)
    ensures { Grown out.old out.new (print (opt (both (dec 0 0) minus)) (option_map (signed_pieces (places scale)) amount)) }
{
    if let Some(z) = amount {
        write_signed(out, z, scale);
    }
}
