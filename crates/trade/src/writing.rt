// The text of a trade.
ghost use Rattle.std.specs.Prelude.{◌≡◌, Some, None, MatchResult};
ghost use Rattle.fields.specs.Terms.{row72};
ghost use Rattle.pieces.specs.Scratches.{Grown};
ghost use Rattle.trade.specs.Deals.{get, table};
ghost use Rattle.trade.specs.Laws.{BackAsWritten, RefusedIfMeaningless};
ghost use Rattle.trade.specs.Views.{seen, view};
ghost use Rattle.trade.specs.Writing.{written, Checked, Lined, LinedAs, Wrote, write_refusal};
ghost use Rattle.trade.specs.declared.writing.WriteFault.TheVariants.{Contents as ContentsFault};

use crate::reading::{Trade, placed_at};
use crate::rows::{Kind, Line, label_of, rows};
use fields::parties::check_note;
use fields::terms::Rate;
use notation::refusals::{FieldFault, Layer, Refusal, Why};
use pieces::contents::Contents;
use pieces::scratch::Scratch;

// Why a trade cannot be written.
#[derive(Clone, Copy, PartialEq, Eq, Debug)]
pub enum WriteFault {
    // no text means it: what its contents would get, at offset 0
    Contents(FieldFault),
    // the output is too short: 20
    Short,
}

impl From<WriteFault> for Refusal {
    ghost from_gives = { λ e r. r ≡ write_refusal e };

    fn from(e: WriteFault) -> Refusal {
        match e {
            WriteFault::Contents(fault) => Refusal::from(fault),
            WriteFault::Short => Refusal {
                number: 20,
                layer: Layer::Line,
                offset: 0,
            },
        }
    }
}

impl From<FieldFault> for WriteFault {
    ghost from_gives = { λ e r. r ≡ ContentsFault e };

    fn from(e: FieldFault) -> WriteFault {
        WriteFault::Contents(e)
    }
}

// Judges a field that stands, and writes it under its label if it is good: label, contents, CR and LF.
fn write_line<F: Contents + Copy>(
    label: &[u8],
    field: Option<F>,
    out: &mut Scratch,
) -> Result<(), Why>
    ensures { LinedAs F.format label.now field out.old out.new result }
{
    let Some(field) = field else {
        return Ok(());
    };
    field.check()?;
    out.append(label);
    field.write(out);
    out.append(b"\r\n");
    Ok(())
}

// The same for free text, which is borrowed.
fn write_note_line(label: &[u8], note: Option<&[u8]>, out: &mut Scratch) -> Result<(), Why>
    ensures { LinedAs row72 label.now (seen note.entry) out.old out.new result }
{
    let Some(note) = note else {
        return Ok(());
    };
    check_note(note)?;
    out.append(label);
    out.append(note);
    out.append(b"\r\n");
    Ok(())
}

// The rate as its field has it. A trade keeps the number itself, so that it can be copied.
fn rate_of(units: Option<u64>) -> Option<Rate>
    ensures same_number { result ≡ units }
{
    units.map(Rate::from)
}

impl Trade<'_> {
    // Judges a field, and writes it if it is good.
    fn line(&self, kind: Kind, out: &mut Scratch) -> Result<(), Why>
        ensures { Lined kind (get kind (view self.now)) out.old out.new result }
    {
        let label = label_of(kind);
        match kind {
            Kind::Nature => write_line(label, Some(self.nature), out),
            Kind::Detail => write_line(label, Some(self.detail), out),
            Kind::Quantity => write_line(label, Some(self.quantity), out),
            Kind::Security => write_line(label, Some(self.security), out),
            Kind::Price => write_line(label, Some(self.price), out),
            Kind::Parties => write_line(label, Some(self.parties), out),
            Kind::Rebate => write_line(label, self.rebate, out),
            Kind::Brokerage => write_line(label, self.brokerage, out),
            Kind::Charges => write_line(label, self.charges, out),
            Kind::Note => write_note_line(label, self.note, out),
            Kind::Rate => write_line(label, rate_of(self.rate), out),
        }
    }
}

// Judges the fields of the rows in turn, and writes them.
fn compose(rows: &[Line], trade: &Trade<'_>, scratch: &mut Scratch) -> Result<(), FieldFault>
    ensures { MatchResult result (λ _. Checked rows.now (view trade.now) None × Grown scratch.old scratch.new (written rows.now (view trade.now))) (λ f. Checked rows.now (view trade.now) (Some f.why) × (f.offset ≡ 0)) }
{
    for row in rows {
        placed_at(trade.line(row.kind, scratch), 0)?;
    }
    Ok(())
}

impl Trade<'_> {
    // Writes the trade's text to the front of an output, and answers its length.
    pub fn write(&self, out: &mut [u8]) -> Result<usize, WriteFault>
        ensures written_or_refused { Wrote table (view self.now) out.old out.new result }
        ensures written_reads_back { BackAsWritten (view self.now) out.new result }
        ensures refused_exactly_when_no_text_means_it { RefusedIfMeaningless (view self.now) result }
    {
        let mut scratch = Scratch::new();
        compose(&rows(), self, &mut scratch)?;
        // the length by its name, so that an edit can answer another one
        let n = scratch.copy_to(out).ok_or(WriteFault::Short)?;
        Ok(n)
    }
}
