// Writing a frame into a lent output.
ghost use Rattle.std.specs.Prelude.{◌≡◌, ◌+◌, ◌%◌, ◌<◌, ◌≤◌, length, take, IfOk, OnErr};
ghost use Rattle.notation.specs.Digits.{digits};
ghost use Rattle.frame.specs.Writing.{head_text, frame_text, unwritable, allowed, wrote, output_after, ReadsBack, JudgedBack};

use crate::faults::{FrameFault, LineFault, TEXT_AT};
use crate::kinds::{Kind, Mark};

// What is written in front of a text.
#[derive(Clone, Copy, PartialEq, Eq, Debug)]
pub struct Heading {
    pub member: u16,
    pub kind: Kind,
    pub number: u32,
    pub mark: Mark,
}

impl Heading {
    // A value that its field cannot hold is refused as the malformed header that it would make.
    fn check(&self, length: usize) -> Result<(), FrameFault>
        ensures answer { result ≡ allowed (unwritable self.now «length») }
    {
        if length > 1000 {
            return Err(FrameFault::Size);
        }
        if self.member > 9999 {
            return Err(FrameFault::Malformed(0));
        }
        if self.number > 999999 {
            return Err(FrameFault::Malformed(9));
        }
        Ok(())
    }

    // The header in front of a text of this length, in an array, since nothing is allocated.
    fn bytes(&self, length: u32) -> [u8; 23]
        ensures every_byte { result ≡ head_text self.now «length» }
    {
        let mut head = [b','; 23];
        put_digits(&mut head[0..4], u32::from(self.member));
        put_digits(&mut head[5..8], u32::from(self.kind.code()));
        put_digits(&mut head[9..15], self.number);
        head[16] = u8::from(self.mark);
        put_digits(&mut head[18..22], length);
        head
    }
}

// Fills the output with the last digits of n, as many as it has bytes.
pub(crate) fn put_digits(out: &mut [u8], n: u32)
    ensures every_digit { out.new ≡ digits (length out.old) n }
{
    if let Some((last, front)) = out.split_last_mut() {
        *last = (n % 10) as u8 + b'0';
        put_digits(front, n / 10);
    }
}

// Writes the frame into the output, and answers its length. The output keeps its bytes past the frame, and all of them at a refusal.
pub fn write_frame(out: &mut [u8], heading: Heading, text: &[u8]) -> Result<usize, LineFault>
    ensures answer { result ≡ wrote (unwritable heading (length text.now)) (23 + length text.now) (length out.old) }
    ensures output { out.new ≡ output_after result (frame_text heading text.now) out.old }
    ensures refusal_changes_nothing { OnErr result (out.new ≡ out.old) }
    ensures reads_back { IfOk result (λ n. ReadsBack heading text.now (take n out.new)) }
    ensures judged_as_written { IfOk result (λ n. JudgedBack heading text.now (take n out.new)) }
{
    heading.check(text.len())?;
    let n = TEXT_AT + text.len();
    if out.len() < n {
        return Err(LineFault::Short);
    }
    let head = heading.bytes(text.len() as u32);
    out[0..TEXT_AT].copy_from_slice(&head);
    out[TEXT_AT..n].copy_from_slice(text);
    Ok(n)
}
