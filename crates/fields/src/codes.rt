// Codes of capital letters, and what is left out or written behind them.
ghost use Rattle.std.specs.Prelude.{◌≡◌, ◌+◌, ◌≤◌, min};
ghost use Rattle.fields.specs.Codes.{Maybe, Sees, coded_row};
ghost use Rattle.fields.specs.Table.{code, slash_code};
ghost use Rattle.notation.specs.declared.classes.Class.TheVariants.{Capital};
ghost use Rattle.pieces.specs.Notation.{Finds, exactly};
ghost use Rattle.pieces.specs.Plain.{places};
ghost use Rattle.pieces.specs.Rows.{Reads, Checks, text_of};
ghost use Rattle.pieces.specs.Scratches.{Grown};

use notation::classes::Class;
use notation::refusals::Why;
use pieces::cuts::{after, all_of, front_of};
use pieces::decimals::{Scale, read_decimal};
use pieces::scratch::Scratch;

// A piece that may be left out: nothing where nothing stands, or what is read there. It takes what was read, and not the reader, since
// a function that is handed one asks that it may be called.
pub fn optional<T: Drop>(s: &[u8], read: Option<T>) -> Option<Option<T>>
    ensures nothing_or_what_is_read { Maybe s.now (λ found. found ≡ read) result }
{
    if s.is_empty() {
        return Some(None);
    }
    read.map(Some)
}

// Two capital letters.
fn two_capitals(s: &[u8]) -> Option<[u8; 2]>
    ensures { Finds (exactly 2 Capital) s.now result }
{
    let code: [u8; 2] = s.try_into().ok()?;
    all_of(&code, Class::Capital).then_some(code)
}

// A slash and two capital letters.
fn read_code(s: &[u8]) -> Option<[u8; 2]>
    ensures { Finds slash_code s.now result }
{
    two_capitals(after(s, b'/')?)
}

// A slash and two capital letters, or nothing.
pub fn optional_code(s: &[u8]) -> Option<Option<[u8; 2]>>
    ensures as_written { Finds code s.now result }
{
    optional(s, read_code(s))
}

// Three capital letters, and the units of a decimal of at most so many whole digits.
fn cut_coded(s: &[u8], whole: usize, scale: Scale) -> Option<([u8; 3], u64)>
    ensures { Sees (coded_row (min whole 13) (places scale)) s.now result }
{
    let (code, rest) = front_of(s, 3, Class::Capital)?;
    let units = read_decimal(rest, whole, scale)?.units;
    Some((code.try_into().ok()?, units))
}

// Reads contents that are three capital letters and a decimal.
pub(crate) fn read_coded(s: &[u8], whole: usize, scale: Scale) -> Result<([u8; 3], u64), Why>
    ensures { Reads (coded_row (min whole 13) (places scale)) s.now result }
{
    cut_coded(s, whole, scale).ok_or(Why::Notation)
}

// What is wrong with three letters and units, were they written so.
pub(crate) fn check_coded(code: &[u8; 3], units: u64, whole: usize, scale: Scale) -> Result<(), Why>
    requires { whole ≤ 13 }
    ensures { Checks (coded_row whole (places scale)) (code.now, units) result }
{
    let digits = (whole + scale.places()) as u32;
    if !all_of(code, Class::Capital) || units >= 10u64.pow(digits) {
        return Err(Why::Notation);
    }
    Ok(())
}

// Writes three letters and units as a decimal.
pub(crate) fn write_coded(out: &mut Scratch, code: &[u8; 3], units: u64, scale: Scale)
    ensures { Grown out.old out.new (text_of (coded_row 0 (places scale)) (code.now, units)) }
{
    out.append(code);
    out.decimal(units, scale);
}
