// Dates of 2000 to 2099 and times of day.
ghost use Rattle.std.specs.Prelude.{◌≡◌, ◌+◌, ◌<◌, ◌&&◌, if◌then◌else◌, Some, None, nat_lt};
ghost use Rattle.pieces.specs.Calendar.{leap, days_in, exists, date_of, time_of, runs};
ghost use Rattle.pieces.specs.Words.{date_words, time_words};

use std::fmt;

#[derive(Clone, Copy, PartialEq, Eq, Debug)]
pub struct Date {
    // with its century
    pub year: u16,
    pub month: u8,
    pub day: u8,
}

#[derive(Clone, Copy, PartialEq, Eq, Debug)]
pub struct Time {
    pub hour: u8,
    pub minute: u8,
}

fn is_leap(year: u16) -> bool
    ensures gregorian { result ≡ leap year }
{
    year % 4 == 0 && (year % 100 != 0 || year % 400 == 0)
}

fn days_in(year: u16, month: u8) -> u8
    ensures gregorian { result ≡ days_in year month }
{
    match month {
        2 => if is_leap(year) { 29 } else { 28 },
        4 | 6 | 9 | 11 => 30,
        _ => 31,
    }
}

// As a person reads it: `2026-04-01`.
impl fmt::Display for Date {
    ghost output = { λ d. Some (date_words d) };

    fn fmt<W: fmt::Write>(&self, f: &mut fmt::Formatter<W>) -> fmt::Result {
        write!(
            f,
            "{}-{}{}-{}{}",
            self.year,
            self.month / 10,
            self.month % 10,
            self.day / 10,
            self.day % 10
        )
    }
}

// As a person reads it: `09:15`.
impl fmt::Display for Time {
    ghost output = { λ t. Some (time_words t) };

    fn fmt<W: fmt::Write>(&self, f: &mut fmt::Formatter<W>) -> fmt::Result {
        write!(
            f,
            "{}{}:{}{}",
            self.hour / 10,
            self.hour % 10,
            self.minute / 10,
            self.minute % 10
        )
    }
}

impl Date {
    // Whether the calendar has the date. Every date is checked here.
    pub fn exists(&self) -> bool
        ensures by_the_calendar { result ≡ exists self.now }
    {
        self.month >= 1
            && self.month <= 12
            && self.day >= 1
            && self.day <= days_in(self.year, self.month)
    }
}

impl Time {
    // Whether a day has the time.
    pub fn exists(&self) -> bool
        ensures by_the_clock { result ≡ runs self.now }
    {
        self.hour <= 23 && self.minute <= 59
    }
}

// The date that six digits say, which write `n`; nothing if there is no such date.
pub fn date_of(n: u32) -> Option<Date>
    ensures if_it_exists { result ≡ (if nat_lt n 1000000 && exists (date_of n) then Some (date_of n) else None) }
{
    if n >= 1_000_000 {
        return None;
    }
    let date = Date {
        year: 2000 + (n / 10_000) as u16,
        month: (n / 100 % 100) as u8,
        day: (n % 100) as u8,
    };
    date.exists().then_some(date)
}

// The time that four digits say, which write `n`; nothing if there is no such time.
pub fn time_of(n: u32) -> Option<Time>
    ensures if_it_exists { result ≡ (if nat_lt n 10000 && runs (time_of n) then Some (time_of n) else None) }
{
    if n >= 10_000 {
        return None;
    }
    let time = Time {
        hour: (n / 100) as u8,
        minute: (n % 100) as u8,
    };
    time.exists().then_some(time)
}
