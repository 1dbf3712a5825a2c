// Sessions. Each state is a type of its own, used up by the step that leaves it: Off, Asked, Open, Leaving and Off again.
// A refusal gives the session back. The fields are private, so that no session is made but by these steps.
ghost use Rattle.frame.specs.Sessions.{new_off, confirmed, confirms, writing, request, passed, request_after, AcceptsIt};
ghost use Rattle.frame.specs.declared.kinds.Kind.TheVariants.{LogOn, LoggedOn, LogOff, LoggedOff};
ghost use Rattle.std.specs.Prelude.{◌≡◌, length, is_ok, OnErr};

use crate::faults::{FrameFault, LineFault, TEXT_AT};
use crate::header::{Header, read_header};
use crate::kinds::{Kind, Mark};
use crate::write::{Heading, write_frame};

// Not logged on.
#[derive(Drop)]
pub struct Off {
    member: u16,
}

// Logged on by us, not yet confirmed.
#[derive(Drop)]
pub struct Asked {
    member: u16,
}

// Logged on and confirmed: calls on a line borrow it.
#[derive(Drop)]
pub struct Open {
    member: u16,
}

// Logged off by us, not yet confirmed.
#[derive(Drop)]
pub struct Leaving {
    member: u16,
}

// The two steps that write, and the two that take a confirmation, are three lines each over what they share (write_request and
// check_confirmed). What differs is their states, which are four plain types, so that each step takes one and gives the next.

impl Off {
    // A session of this member; a number above 9999 is 21.
    pub fn new(member: u16) -> Result<Off, LineFault>
        ensures answer { result ≡ new_off member }
    {
        if member > 9999 {
            return Err(LineFault::Setting);
        }
        Ok(Off { member })
    }

    // Writes a 000 frame, and answers its length.
    pub fn log_on(self, out: &mut [u8]) -> Result<(Asked, usize), (Off, LineFault)>
        ensures answer { result ≡ writing (request LogOn self.member (length out.old)) self (record { member = self.member }) }
        ensures output { out.new ≡ request_after LogOn self.member out.old }
        ensures refusal_changes_nothing { OnErr result (out.new ≡ out.old) }
    {
        let member = self.member;
        write_request(out, member, Kind::LogOn)
            .map(|n| (Asked { member }, n))
            .map_err(|fault| (self, fault))
    }
}

impl Asked {
    // A 001 frame for this member opens the session.
    #[tactic(auto, using(crate::proofs::Confirmed::accepts_it))]
    pub fn accept(self, frame: &[u8]) -> Result<Open, (Asked, LineFault)>
        ensures answer { result ≡ passed (confirmed LoggedOn self.member frame.now) self (record { member = self.member }) }
        ensures accepts_the_confirmation_alone { AcceptsIt LoggedOn self.member frame.now (is_ok result) }
    {
        let member = self.member;
        check_confirmed(frame, member, Kind::LoggedOn)
            .map(|()| Open { member })
            .map_err(|fault| (self, fault))
    }
}

impl Open {
    // Writes a 002 frame, and answers its length.
    pub fn log_off(self, out: &mut [u8]) -> Result<(Leaving, usize), (Open, LineFault)>
        ensures answer { result ≡ writing (request LogOff self.member (length out.old)) self (record { member = self.member }) }
        ensures output { out.new ≡ request_after LogOff self.member out.old }
        ensures refusal_changes_nothing { OnErr result (out.new ≡ out.old) }
    {
        let member = self.member;
        write_request(out, member, Kind::LogOff)
            .map(|n| (Leaving { member }, n))
            .map_err(|fault| (self, fault))
    }
}

impl Leaving {
    // A 003 frame for this member ends the session.
    #[tactic(auto, using(crate::proofs::Confirmed::accepts_it))]
    pub fn accept(self, frame: &[u8]) -> Result<Off, (Leaving, LineFault)>
        ensures answer { result ≡ passed (confirmed LoggedOff self.member frame.now) self (record { member = self.member }) }
        ensures accepts_the_confirmation_alone { AcceptsIt LoggedOff self.member frame.now (is_ok result) }
    {
        let member = self.member;
        check_confirmed(frame, member, Kind::LoggedOff)
            .map(|()| Off { member })
            .map_err(|fault| (self, fault))
    }
}

// A frame of a session type: number 000000, no text.
fn write_request(out: &mut [u8], member: u16, kind: Kind) -> Result<usize, LineFault>
    ensures answer { result ≡ request kind member (length out.old) }
    ensures output { out.new ≡ request_after kind member out.old }
{
    write_frame(
        out,
        Heading {
            member,
            kind,
            number: 0,
            mark: Mark::Fresh,
        },
        &[],
    )
}

// Whether a frame is the confirmation that a session waits for: 11, 12, then 13 for another type, 14 for a text, 31, and 32 for a number but 000000.
fn check_confirmed(frame: &[u8], member: u16, kind: Kind) -> Result<(), LineFault>
    ensures answer { result ≡ confirmed kind member frame.now }
{
    let header = read_header(frame)?;
    check_header(&header, frame.len(), member, kind)
}

fn check_header(header: &Header, size: usize, member: u16, kind: Kind) -> Result<(), LineFault>
    ensures answer { result ≡ confirms kind member size header.now }
{
    if header.code != kind.code() {
        return Err(FrameFault::NotTaken.into());
    }
    if header.length != 0 || size != TEXT_AT {
        return Err(FrameFault::Length.into());
    }
    if header.member != member {
        return Err(LineFault::Member);
    }
    if header.number != 0 {
        return Err(LineFault::Number);
    }
    Ok(())
}
