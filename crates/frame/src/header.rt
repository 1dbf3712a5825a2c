// The header of a frame: five fields, each closed by a comma: member (4 digits), type (3), number (6), mark (J or N), length of the text (4).
ghost use Rattle.std.specs.Prelude.{◌≡◌, ℕ, ◌+◌, ◌^◌, ◌<◌, ◌≤◌, [], ◌∷◌, length, IfOk, OnOk};
ghost use Rattle.frame.specs.Forms.{wrong_from};
ghost use Rattle.frame.specs.Forms.Spot.{just};
ghost use Rattle.frame.specs.Headers.{read_header, read_number, read_digits, read_digit, read_mark, text_of, unless, seen, WrittenAs};

use crate::faults::{FrameFault, TEXT_AT};
use crate::kinds::Mark;
use notation::classes::is_digit;
use notation::part::Part;

#[derive(Clone, Copy, PartialEq, Eq, Debug)]
pub struct Header {
    pub member: u16,
    // the type's number; it stays a number, since a header may name a type that is not ours
    pub code: u16,
    pub number: u32,
    pub mark: Mark,
    pub length: u16,
}

impl Header {
    // The text of the frame, handed on as the part from byte 23, where the length in the header is true; else 14.
    pub fn text<'a>(&self, frame: &'a [u8]) -> Result<Part<'a>, FrameFault>
        ensures answer { seen result ≡ text_of self.now frame.now }
    {
        if frame.len() != TEXT_AT + self.length as usize {
            return Err(FrameFault::Length);
        }
        Ok(Part {
            bytes: &frame[TEXT_AT..],
            at: TEXT_AT,
        })
    }
}

// The header of a frame of any bytes: 11 for its size, then 12 at the first wrong byte.
#[tactic(auto, using(crate::proofs::Headings::wrong_member, crate::proofs::Headings::wrong_type, crate::proofs::Headings::wrong_number))]
pub fn read_header(frame: &[u8]) -> Result<Header, FrameFault>
    ensures answer { result ≡ read_header frame.now }
    ensures is_what_would_be_written { IfOk result (λ h. WrittenAs h frame.now) }
{
    if frame.len() < 23 || frame.len() > 1023 {
        return Err(FrameFault::Size);
    }
    let member = read_number(frame, 0, 4)?;
    let code = read_number(frame, 5, 3)?;
    let number = read_number(frame, 9, 6)?;
    let mark = read_mark(frame)?;
    let length = read_number(frame, 18, 4)?;
    Ok(Header {
        member: member as u16,
        code: code as u16,
        number,
        mark,
        length: length as u16,
    })
}

// One field of digits that begins at `at`, with the comma that closes it.
#[tactic(auto, using(crate::proofs::Numbers::field_stops, crate::proofs::Numbers::unclosed, crate::proofs::Numbers::field_ends))]
pub(crate) fn read_number(frame: &[u8], at: usize, width: usize) -> Result<u32, FrameFault>
    requires small { width ≤ 6 }
    ensures answer { result ≡ read_number frame.now at width }
    ensures below { IfOk result (λ v. v < 10 ^ width) }
{
    let value = read_digits(frame, at, width)?;
    check_comma(frame, at + width)?;
    Ok(value)
}

// The value of the digits that begin at `at`. A byte that is no digit, or is absent, is malformed.
pub(crate) fn read_digits(frame: &[u8], at: usize, width: usize) -> Result<u32, FrameFault>
    requires small { width ≤ 6 }
    ensures answer { result ≡ read_digits frame.now at width }
    ensures below { IfOk result (λ v. v < 10 ^ width) }
    ensures within { OnOk result (0 < width → at + width ≤ length frame.now) }
{
    let mut value = 0;
    // by place and not by byte, since a digit that is absent is told by its place
    for i in 0..width {
        let digit = read_digit(frame, at + i)?;
        value = value * 10 + digit;
    }
    Ok(value)
}

fn read_digit(frame: &[u8], at: usize) -> Result<u32, FrameFault>
    ensures answer { result ≡ read_digit frame.now at }
{
    match frame.get(at) {
        Some(b) if is_digit(*b) => Ok(u32::from(*b - b'0')),
        _ => Err(FrameFault::Malformed(at)),
    }
}

#[tactic(auto, unfolding(crate::specs::Forms::wrong_from))]
fn check_comma(frame: &[u8], at: usize) -> Result<(), FrameFault>
    ensures answer { result ≡ unless (wrong_from at (just 44 ∷ []) frame.now) tt }
{
    if frame.get(at) != Some(&b',') {
        return Err(FrameFault::Malformed(at));
    }
    Ok(())
}

#[tactic(auto, unfolding(crate::specs::Forms::wrong_from))]
fn read_mark(frame: &[u8]) -> Result<Mark, FrameFault>
    ensures answer { result ≡ read_mark frame.now }
{
    let mark = frame
        .get(16)
        .and_then(|b| Mark::try_from(*b).ok())
        .ok_or(FrameFault::Malformed(16))?;
    check_comma(frame, 17)?;
    Ok(mark)
}
