// What is wrong with the details of a trade, were they written; and how they are written.
ghost use Rattle.std.specs.Prelude.{◌≡◌, ◌<◌, [], ◌∷◌, Decides, unsigned_abs};
ghost use Rattle.detail.specs.Codes.{issue_mark};
ghost use Rattle.detail.specs.Detail.{row31p, IfThere, settlement_piece, days_piece};
ghost use Rattle.detail.specs.Writing.{DateFits, TimeFits, DetailFits, date_of_settlement, OfCalendar, OfDay, DetailExists};
ghost use Rattle.detail_cut.specs.Form.{slash_date, slash_coded_date, signed_days};
ghost use Rattle.notation.specs.declared.classes.Class.TheVariants.{Capital};
ghost use Rattle.pieces.specs.Calendar.{stamp, minute_stamp};
ghost use Rattle.pieces.specs.Notation.{print, number, exactly, opt, sign};
ghost use Rattle.pieces.specs.Plain.{negative};
ghost use Rattle.pieces.specs.Scratches.{Grown};
ghost use Rattle.std.specs.Option.{option_map};

use crate::detail::{Detail, Settlement, read_detail};
use notation::refusals::Why;
use pieces::calendar::{Date, Time};
use pieces::contents::Contents;
use pieces::scratch::Scratch;

// Whether a date has two digits each for its year from 2000 on, its month and its day, and a time for its hour and its minute: two
// types, a line for each.
fn date_fits(date: Date) -> bool
    ensures { Decides result (DateFits date) }
{
    date.year >= 2000 && date.year <= 2099 && date.month <= 99 && date.day <= 99
}

fn time_fits(time: Time) -> bool
    ensures { Decides result (TimeFits time) }
{
    time.hour <= 99 && time.minute <= 99
}

fn value_date(settlement: Option<Settlement>) -> Option<Date>
    ensures { result ≡ option_map date_of_settlement settlement }
{
    settlement.map(|s| s.value_date)
}

// The six digits of a date, and the four of a time, as numbers.
fn stamp_of(date: Date) -> u32
    ensures { result ≡ stamp date }
{
    u32::from(date.year).saturating_sub(2000) * 10_000
        + u32::from(date.month) * 100
        + u32::from(date.day)
}

fn minutes_of(time: Time) -> u32
    ensures { result ≡ minute_stamp time }
{
    u32::from(time.hour) * 100 + u32::from(time.minute)
}

fn sign_of(days: i16) -> u8
    ensures { result ∷ [] ≡ print sign (negative days) }
{
    if days < 0 { b'-' } else { b'+' }
}

// Each piece is written where it is there. A closure for one generic function would have to carry the contract that its function has here.
fn write_traded(out: &mut Scratch, traded: Option<Date>)
    ensures { Grown out.old out.new (print (opt slash_date) (option_map stamp traded)) }
{
    if let Some(date) = traded {
        out.push(b'/');
        out.digits(6, stamp_of(date));
    }
}

fn write_time(out: &mut Scratch, time: Option<Time>)
    ensures { Grown out.old out.new (print (opt (number 4)) (option_map minute_stamp time)) }
{
    if let Some(time) = time {
        out.digits(4, minutes_of(time));
    }
}

fn write_closing(out: &mut Scratch, closing: Option<Date>)
    ensures { Grown out.old out.new (print (opt (number 6)) (option_map stamp closing)) }
{
    if let Some(date) = closing {
        out.digits(6, stamp_of(date));
    }
}

fn write_settlement(out: &mut Scratch, settlement: Option<Settlement>)
    ensures { Grown out.old out.new (print (opt slash_coded_date) (option_map settlement_piece settlement)) }
{
    if let Some(s) = settlement {
        out.push(b'/');
        out.append(&<[u8; 2]>::from(s.kind));
        out.digits(6, stamp_of(s.value_date));
    }
}

fn write_mark(out: &mut Scratch, new_issue: bool)
    ensures { Grown out.old out.new (print (opt (exactly 2 Capital)) (issue_mark new_issue)) }
{
    if new_issue {
        out.append(b"EM");
    }
}

fn write_days(out: &mut Scratch, days: i16)
    ensures { Grown out.old out.new (print signed_days (days_piece days)) }
{
    out.push(sign_of(days));
    out.digits(3, u32::from(days.unsigned_abs()));
}

fn write_interest(out: &mut Scratch, days: Option<i16>)
    ensures { Grown out.old out.new (print (opt signed_days) (option_map days_piece days)) }
{
    if let Some(days) = days {
        write_days(out, days);
    }
}

fn write_discount(out: &mut Scratch, days: Option<u16>)
    ensures { Grown out.old out.new (print (opt (number 3)) days) }
{
    if let Some(days) = days {
        out.digits(3, u32::from(days));
    }
}

impl Detail {
    // Whether each piece has digits enough.
    fn fits(&self) -> bool
        ensures { Decides result (DetailFits self.now) }
    {
        self.traded.is_none_or(date_fits)
            && self.time.is_none_or(time_fits)
            && self.closing.is_none_or(date_fits)
            && value_date(self.settlement).is_none_or(date_fits)
            && self.interest_days.is_none_or(|z| z.unsigned_abs() < 1000)
            && self.discount_days.is_none_or(|n| n < 1000)
    }

    // Whether each date and the time exist.
    fn exists(&self) -> bool
        ensures { Decides result (DetailExists self.now) }
    {
        self.traded.is_none_or(|d| d.exists())
            && self.time.is_none_or(|t| t.exists())
            && self.closing.is_none_or(|d| d.exists())
            && value_date(self.settlement).is_none_or(|d| d.exists())
    }
}

impl Contents for Detail {
    ghost format = { row31p };

    fn read(s: &[u8]) -> Result<Detail, Why> {
        read_detail(s)
    }

    fn check(&self) -> Result<(), Why> {
        if !self.fits() {
            return Err(Why::Notation);
        }
        if !self.exists() {
            return Err(Why::Moment);
        }
        Ok(())
    }

    fn write(&self, out: &mut Scratch) {
        out.digits(3, u32::from(self.place));
        write_traded(out, self.traded);
        write_time(out, self.time);
        write_closing(out, self.closing);
        write_settlement(out, self.settlement);
        write_mark(out, self.new_issue);
        write_interest(out, self.interest_days);
        write_discount(out, self.discount_days);
    }
}
