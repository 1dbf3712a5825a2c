// The judge of an arriving frame: what it says, or why it is turned away.
ghost use Rattle.frame.specs.Arrivals.{arriving, contents_of, message_of, for_line, judged};
ghost use Rattle.frame.specs.Judging.{Judged, told};
ghost use Rattle.frame.specs.declared.arrival.Arrival.{Arrival};
ghost use Rattle.notation.specs.declared.refusals.Refusal.{Refusal};
ghost use Rattle.frame.specs.declared.faults.FrameFault.TheVariants.{NotTaken};
ghost use Rattle.std.specs.Prelude.{◌≡◌, Result, ok_or};

use crate::faults::{FrameFault, LineFault, TEXT_AT};
use crate::header::{Header, read_header};
use crate::kinds::{Kind, Osn};
use crate::texts::{Answer, check_plain, read_answer};
use notation::refusals::FieldFault;

// The numbers under which the exchange sends to a line.
#[derive(Clone, Copy, PartialEq, Eq, Debug)]
pub struct Circle {
    pub first: Osn,
    pub last: Osn,
}

// A numbered message of the exchange: its header, its type, and for a 596 what it says of a trade.
#[derive(Clone, Copy, PartialEq, Eq, Debug)]
pub struct Message {
    pub header: Header,
    pub kind: Kind,
    pub answer: Option<Answer>,
}

// An arrival that is taken: its number and type, where its text begins, and for a 596 what it says of a trade.
#[derive(Clone, Copy, PartialEq, Eq, Debug)]
pub struct Arrival {
    pub number: Osn,
    pub kind: Kind,
    pub text: usize,
    pub answer: Option<Answer>,
}

// The message in a frame, whoever it is for: 11 to 14, then the text's own fault, 16 or 17.
pub fn read_message(frame: &[u8]) -> Result<Message, FrameFault>
    ensures answer { result ≡ message_of frame.now }
{
    let header = read_header(frame)?;
    let kind = find_arriving(header.code)?;
    let text = header.text(frame)?;
    let answer = read_contents(kind, text.bytes)?;
    Ok(Message {
        header,
        kind,
        answer,
    })
}

// The type with this number, if the exchange sends it under a number of its own; else 13.
fn find_arriving(code: u16) -> Result<Kind, FrameFault>
    ensures answer { result ≡ ok_or (arriving «code») NotTaken }
{
    let kind = Kind::try_from(code)?;
    kind.arrives().then_some(kind).ok_or(FrameFault::NotTaken)
}

// What a text of this type says of a trade, if it says anything of one.
fn read_contents(kind: Kind, text: &[u8]) -> Result<Option<Answer>, FieldFault>
    ensures answer { result ≡ contents_of kind text.now }
{
    if kind.answers() {
        read_answer(text).map(Some)
    } else {
        check_plain(text).map(|()| None)
    }
}

impl Message {
    // The arrival at a line of this member and circle: 31 for another member, then 32 outside the circle.
    pub fn arrive_at(&self, member: u16, circle: Circle) -> Result<Arrival, LineFault>
        ensures answer { result ≡ for_line member circle self.now }
    {
        let number = Osn(self.header.number);
        if self.header.member != member {
            return Err(LineFault::Member);
        }
        if number < circle.first || number > circle.last {
            return Err(LineFault::Number);
        }
        Ok(Arrival {
            number,
            kind: self.kind,
            text: TEXT_AT,
            answer: self.answer,
        })
    }
}

// Judges an arriving frame for a line of this member and circle: the frame and its text first, then the member and the circle.
pub fn judge(frame: &[u8], member: u16, circle: Circle) -> Result<Arrival, LineFault>
    ensures answer { result ≡ judged member circle frame.now }
    ensures by_the_rules { Judged member circle frame.now (told result) }
    ensures one_answer { (q : Result Arrival Refusal) → Judged member circle frame.now q → q ≡ told result }
{
    let message = read_message(frame)?;
    message.arrive_at(member, circle)
}
