// Numbers, dates and times as people write them.
use pieces::calendar::{Date, Time};

// The number whose digits are those of n and one more.
fn with_digit(n: u64, b: u8) -> Option<u64> {
    let digit = char::from(b).to_digit(10)?;
    n.checked_mul(10)?.checked_add(u64::from(digit))
}

// A number of digits alone.
fn read_whole(s: &[u8]) -> Option<u64> {
    if s.is_empty() {
        return None;
    }
    s.iter().try_fold(0, |n, b| with_digit(n, *b))
}

// A number of digits alone that its type holds.
pub fn read_number<N: TryFrom<u64>>(s: &[u8]) -> Option<N>
where
    N::Error: Drop,
{
    N::try_from(read_whole(s)?).ok()
}

// A number such as 12, 12.5 or 12,5, in units of so many decimal places.
pub fn read_units(s: &[u8], places: usize) -> Option<u64> {
    let (whole, fraction) = match s.iter().position(|b| *b == b'.' || *b == b',') {
        Some(i) => (s.get(..i)?, s.get(i.saturating_add(1)..)?),
        None => (s, &s[..0]),
    };
    let zeros = places.checked_sub(fraction.len())?;
    let value = fraction
        .iter()
        .try_fold(read_whole(whole)?, |n, b| with_digit(n, *b))?;
    (0..zeros).try_fold(value, |n: u64, _| n.checked_mul(10))
}

// The same with a minus in front, or not.
pub fn read_signed(s: &[u8], places: usize) -> Option<i64> {
    match s.strip_prefix(b"-") {
        Some(size) => i64::try_from(read_units(size, places)?).ok()?.checked_neg(),
        None => i64::try_from(read_units(s, places)?).ok(),
    }
}

pub fn read_days(s: &[u8]) -> Option<i16> {
    i16::try_from(read_signed(s, 0)?).ok()
}

// 2026-04-01
pub fn read_date(s: &[u8]) -> Option<Date> {
    if s.len() != 10 || s[4] != b'-' || s[7] != b'-' {
        return None;
    }
    Some(Date {
        year: read_number(&s[0..4])?,
        month: read_number(&s[5..7])?,
        day: read_number(&s[8..10])?,
    })
}

// 09:15
pub fn read_time(s: &[u8]) -> Option<Time> {
    if s.len() != 5 || s[2] != b':' {
        return None;
    }
    Some(Time {
        hour: read_number(&s[0..2])?,
        minute: read_number(&s[3..5])?,
    })
}
