// The text of a retrieval: `from,to`, six digits each.
ghost use Rattle.frame.specs.Texts.{range_of, range_written, read_ends};
ghost use Rattle.std.specs.Prelude.{◌≡◌, IfOk, Ok};

use crate::faults::{FrameFault, NOT_OF_THE_NOTATION};
use crate::header::{read_digits, read_number};
use crate::kinds::Osn;
use crate::write::put_digits;
use notation::refusals::FieldFault;

// The messages that are asked for once more, from the first to the last.
#[derive(Clone, Copy, PartialEq, Eq, Debug)]
pub struct Range {
    pub from: Osn,
    pub to: Osn,
}

// The range as text, in an array, since nothing is allocated; a number above 999999 is 16.
pub fn write_range(range: Range) -> Result<[u8; 13], FieldFault>
    ensures answer { result ≡ range_written range }
    ensures reads_back { IfOk result (λ text. range_of text ≡ Ok range) }
{
    if range.from.0 > 999999 || range.to.0 > 999999 {
        return Err(NOT_OF_THE_NOTATION);
    }
    let mut text = [b','; 13];
    put_digits(&mut text[0..6], range.from.0);
    put_digits(&mut text[7..13], range.to.0);
    Ok(text)
}

// The range that a text names; any other text is 16.
pub fn read_range(text: &[u8]) -> Result<Range, FieldFault>
    ensures answer { result ≡ range_of text.now }
{
    if text.len() != 13 {
        return Err(NOT_OF_THE_NOTATION);
    }
    read_ends(text).map_err(|_| NOT_OF_THE_NOTATION)
}

#[tactic(auto, using(crate::proofs::Ranges::from_wrong, crate::proofs::Ranges::to_wrong, crate::proofs::Ranges::both_read))]
fn read_ends(text: &[u8]) -> Result<Range, FrameFault>
    ensures answer { result ≡ read_ends text.now }
{
    let from = read_number(text, 0, 6)?;
    let to = read_digits(text, 7, 6)?;
    Ok(Range {
        from: Osn(from),
        to: Osn(to),
    })
}
