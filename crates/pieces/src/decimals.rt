// Decimals: digits, a comma and more digits, which count units of a fraction.
ghost use Rattle.std.specs.Prelude.{◌≡◌, ℕ, ◌+◌, ◌^◌, ◌<◌, ◌≤◌, min, List, length, MatchOption};
ghost use Rattle.notation.specs.declared.classes.Class.TheVariants.{Digit};
ghost use Rattle.pieces.specs.Notation.{Of, units};
ghost use Rattle.pieces.specs.Plain.{places, Parted, Counted, OnePlainText, ZeroText};
ghost use Rattle.std.specs.List.{AllByRecursion};

use crate::cuts::{Digits, after, split_digits};

// What a decimal counts.
#[derive(Clone, Copy, PartialEq, Eq, Debug)]
pub enum Scale {
    Hundredths,
    Thousandths,
    TenThousandths,
    HundredThousandths,
}

impl Scale {
    // How many fraction digits it has.
    pub fn places(self) -> usize
        ensures fraction_digits { result ≡ places self }
    {
        match self {
            Scale::Hundredths => 2,
            Scale::Thousandths => 3,
            Scale::TenThousandths => 4,
            Scale::HundredThousandths => 5,
        }
    }

    // How many of its units make one.
    pub fn unit(self) -> u64
        ensures units_in_one { result ≡ 10 ^ places self }
    {
        10u64.pow(self.places() as u32)
    }
}

// A decimal as it was read: its units, and how many digits stood before and after the comma.
#[derive(Clone, Copy, PartialEq, Eq, Debug)]
pub struct Decimal {
    pub units: u64,
    pub whole: usize,
    pub fraction: usize,
}

// The digits before the comma and those after it.
fn cut_decimal(s: &[u8]) -> Option<(Digits<'_>, Digits<'_>)>
    ensures { MatchOption result ((v : List ℕ × List ℕ) → Parted s.now v → ⊥) (λ x. Parted s.now (x.0.bytes.now, x.1.bytes.now)) }
{
    let (whole, tail) = split_digits(s);
    let tail = after(tail, b',')?;
    let (fraction, tail) = split_digits(tail);
    tail.is_empty().then_some((whole, fraction))
}

// How many units of the scale they write.
fn in_units(whole: Digits<'_>, fraction: Digits<'_>, scale: Scale) -> u64
    requires few { (length fraction.bytes.now ≤ places scale) × (length whole.bytes.now ≤ 13) }
    ensures { result ≡ units (places scale) (whole.entry.bytes.now, fraction.entry.bytes.now) }
{
    let front = whole.number() * scale.unit();
    front + fraction.number() * 10u64.pow((scale.places() - fraction.len()) as u32)
}

// The decimal of at most so many whole digits, 13 at most, that contents write.
pub fn read_decimal(s: &[u8], whole: usize, scale: Scale) -> Option<Decimal>
    ensures counted { Counted (min whole 13) (places scale) s.now result }
{
    let (front, fraction) = cut_decimal(s)?;
    if front.len() > whole.min(13) {
        return None;
    }
    if fraction.len() == 0 || fraction.len() > scale.places() {
        return None;
    }
    Some(Decimal {
        units: in_units(front, fraction, scale),
        whole: front.len(),
        fraction: fraction.len(),
    })
}

pub fn a_decimal_has_one_plain_text()
    ensures one_plain_text { OnePlainText }
    ensures zero_has_no_sign { ZeroText }
{}
