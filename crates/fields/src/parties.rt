// Who trades what: the security (field 35B), the members (82D), and free text (72).
ghost use Rattle.fields.specs.Codes.{Sees};
ghost use Rattle.fields.specs.Table.{parties_form};
ghost use Rattle.fields.specs.Terms.{row35b, row82d, row72, seen_ok};
ghost use Rattle.pieces.specs.Notation.{Finds};
ghost use Rattle.pieces.specs.Rows.{Reads, Checks};

use notation::classes::Class;
use notation::refusals::Why;
use pieces::contents::Contents;
use pieces::cuts::{after, all_of, front_number, read_number};
use pieces::scratch::Scratch;

// Field 35B: an international securities identification number.
#[derive(Clone, Copy, PartialEq, Eq, Debug)]
pub struct Isin {
    pub bytes: [u8; 12],
}

// Field 82D: numbers of four digits.
#[derive(Clone, Copy, PartialEq, Eq, Debug)]
pub struct Parties {
    pub entering: u16,
    pub counterparty: u16,
}

fn cut_isin(s: &[u8]) -> Option<Isin>
    ensures { Sees row35b s.now result }
{
    let bytes: [u8; 12] = s.strip_prefix(b"ISIN ")?.try_into().ok()?;
    all_of(&bytes, Class::Either).then_some(Isin { bytes })
}

impl Contents for Isin {
    ghost format = { row35b };

    fn read(s: &[u8]) -> Result<Isin, Why> {
        cut_isin(s).ok_or(Why::Notation)
    }

    fn check(&self) -> Result<(), Why> {
        if !all_of(&self.bytes, Class::Either) {
            return Err(Why::Notation);
        }
        Ok(())
    }

    fn write(&self, out: &mut Scratch) {
        out.append(b"ISIN ");
        out.append(&self.bytes);
    }
}

fn cut_parties(s: &[u8]) -> Option<(u32, u32)>
    ensures { Finds parties_form s.now result }
{
    let (entering, rest) = front_number(s, 4)?;
    let counterparty = read_number(after(rest, b'/')?, 4)?;
    Some((entering, counterparty))
}

impl Contents for Parties {
    ghost format = { row82d };

    fn read(s: &[u8]) -> Result<Parties, Why> {
        let (entering, counterparty) = cut_parties(s).ok_or(Why::Notation)?;
        Ok(Parties {
            entering: entering as u16,
            counterparty: counterparty as u16,
        })
    }

    fn check(&self) -> Result<(), Why> {
        if self.entering > 9_999 || self.counterparty > 9_999 {
            return Err(Why::Notation);
        }
        Ok(())
    }

    fn write(&self, out: &mut Scratch) {
        out.digits(4, self.entering as u32);
        out.push(b'/');
        out.digits(4, self.counterparty as u32);
    }
}

// Reads the contents of field 72, 1 to 30 free characters. They are borrowed and have no value of their own to implement Contents for.
pub fn read_note(s: &[u8]) -> Result<&[u8], Why>
    ensures as_the_row_has_it { Reads row72 s.now (seen_ok result) }
{
    check_note(s)?;
    Ok(s)
}

// What is wrong with free text, were it written.
pub fn check_note(note: &[u8]) -> Result<(), Why>
    ensures as_its_contents_would { Checks row72 note.now result }
{
    if note.is_empty() || note.len() > 30 || !all_of(note, Class::Free) {
        return Err(Why::Notation);
    }
    Ok(())
}
