// The fields of an MT 511, as rows of its format table.
ghost use Rattle.std.specs.Prelude.{◌≡◌};
ghost use Rattle.trade.specs.Deals.{label, table};
ghost use Rattle.trade.specs.Views.{kind_of, part_of, Found};

use notation::part::Part;
use notation::refusals::TextFault;
use walk::reader::Reader;

#[derive(Clone, Copy, PartialEq, Eq, Debug)]
pub enum Kind {
    // 23
    Nature,
    // 31P
    Detail,
    // 35A
    Quantity,
    // 35B
    Security,
    // 33T
    Price,
    // 82D
    Parties,
    // 71B
    Rebate,
    // 71C
    Brokerage,
    // 71D
    Charges,
    // 72
    Note,
    // 36
    Rate,
}

// A row of the format table: a kind of field, and whether it must stand.
#[derive(Clone, Copy, PartialEq, Eq, Debug)]
pub struct Line {
    pub kind: Kind,
    pub required: bool,
}

// A field of a text: its contents, and where they stand. One case for each kind, so that fields are handed on one by one; the matches
// over kinds and fields give each case what is its own.
#[derive(Clone, Copy, PartialEq, Eq, Debug)]
pub enum Field<'a> {
    Nature(Part<'a>),
    Detail(Part<'a>),
    Quantity(Part<'a>),
    Security(Part<'a>),
    Price(Part<'a>),
    Parties(Part<'a>),
    Rebate(Part<'a>),
    Brokerage(Part<'a>),
    Charges(Part<'a>),
    Note(Part<'a>),
    Rate(Part<'a>),
}

pub(crate) fn label_of(kind: Kind) -> &'static [u8]
    ensures { result.now ≡ label kind }
{
    match kind {
        Kind::Nature => b":23:",
        Kind::Detail => b":31P:",
        Kind::Quantity => b":35A:",
        Kind::Security => b":35B:",
        Kind::Price => b":33T:",
        Kind::Parties => b":82D:",
        Kind::Rebate => b":71B:",
        Kind::Brokerage => b":71C:",
        Kind::Charges => b":71D:",
        Kind::Note => b":72:",
        Kind::Rate => b":36:",
    }
}

fn field_of(kind: Kind, part: Part<'_>) -> Field<'_>
    ensures kind { kind_of result ≡ kind }
    ensures part { ((part_of result).bytes.now ≡ part.entry.bytes.now) × ((part_of result).at ≡ part.entry.at) }
{
    match kind {
        Kind::Nature => Field::Nature(part),
        Kind::Detail => Field::Detail(part),
        Kind::Quantity => Field::Quantity(part),
        Kind::Security => Field::Security(part),
        Kind::Price => Field::Price(part),
        Kind::Parties => Field::Parties(part),
        Kind::Rebate => Field::Rebate(part),
        Kind::Brokerage => Field::Brokerage(part),
        Kind::Charges => Field::Charges(part),
        Kind::Note => Field::Note(part),
        Kind::Rate => Field::Rate(part),
    }
}

fn row(kind: Kind, required: bool) -> Line
    ensures row { result ≡ record { kind = kind; required = required } }
{
    Line { kind, required }
}

// The rows in their order; the first six must stand.
pub(crate) fn rows() -> [Line; 11]
    ensures { result ≡ table }
{
    [
        row(Kind::Nature, true),
        row(Kind::Detail, true),
        row(Kind::Quantity, true),
        row(Kind::Security, true),
        row(Kind::Price, true),
        row(Kind::Parties, true),
        row(Kind::Rebate, false),
        row(Kind::Brokerage, false),
        row(Kind::Charges, false),
        row(Kind::Note, false),
        row(Kind::Rate, false),
    ]
}

// Moves on over the row's field, if it stands next.
pub fn next_field<'a>(reader: &mut Reader<'a>, row: Line) -> Result<Option<Field<'a>>, TextFault>
    ensures found { Found row reader.old reader.new result }
{
    if !reader.enter(label_of(row.kind)) {
        if row.required {
            return Err(TextFault::Label(reader.place()));
        }
        return Ok(None);
    }
    let part = reader.contents()?;
    Ok(Some(field_of(row.kind, part)))
}
