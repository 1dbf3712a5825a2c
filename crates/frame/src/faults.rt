// Faults of a frame and of a call on the line, and how a fault goes up from layer to layer.
ghost use Rattle.frame.specs.Faults.{frame_refusal, line_refusal, in_frame, in_frame_field};
ghost use Rattle.frame.specs.declared.faults.LineFault.TheVariants.{InFrame};
ghost use Rattle.std.specs.Prelude.{◌≡◌};

use notation::refusals::{FieldFault, Layer, Refusal, TextFault, Why};

// The text of a frame begins at this byte.
pub const TEXT_AT: usize = 23;

// A text that is not of its notation as a whole.
pub(crate) const NOT_OF_THE_NOTATION: FieldFault = FieldFault {
    why: Why::Notation,
    offset: 0,
};

#[derive(Clone, Copy, PartialEq, Eq, Debug)]
pub enum FrameFault {
    // below 23 or above 1,023 bytes: 11
    Size,
    // the header's first wrong byte: 12
    Malformed(usize),
    // a type that is not taken here: 13
    NotTaken,
    // the length in the header is not the text's: 14
    Length,
    // a fault in the text, with its place in the frame: 15 to 19
    InText(TextFault),
}

impl From<FrameFault> for Refusal {
    ghost from_gives = { λ e r. r ≡ frame_refusal e };

    fn from(e: FrameFault) -> Refusal {
        let (number, offset) = match e {
            FrameFault::Size => (11, 0),
            FrameFault::Malformed(at) => (12, at),
            FrameFault::NotTaken => (13, 5),
            FrameFault::Length => (14, 18),
            FrameFault::InText(fault) => return Refusal::from(fault),
        };
        Refusal {
            number,
            layer: Layer::Frame,
            offset,
        }
    }
}

// A text's fault in the frame: the same number and layer, 23 bytes on.
impl From<TextFault> for FrameFault {
    ghost from_gives = { λ e r. r ≡ in_frame e };

    fn from(e: TextFault) -> FrameFault {
        match e {
            TextFault::Label(at) => FrameFault::InText(TextFault::Label(at.saturating_add(
                TEXT_AT,
            ))),
            TextFault::Within(fault) => FrameFault::from(fault),
        }
    }
}

// A fault of the text's only field: the same number and layer, 23 bytes on.
impl From<FieldFault> for FrameFault {
    ghost from_gives = { λ e r. r ≡ in_frame_field e };

    fn from(e: FieldFault) -> FrameFault {
        let offset = e.offset.saturating_add(TEXT_AT);
        FrameFault::InText(TextFault::Within(FieldFault { why: e.why, offset }))
    }
}

// What a call on a line or a session refuses.
#[derive(Clone, Copy, PartialEq, Eq, Debug)]
pub enum LineFault {
    // the frame itself is refused: 11 to 19
    InFrame(FrameFault),
    // the output is too short: 20
    Short,
    // a set-up value outside its range: 21
    Setting,
    // a request that is not known: 22
    Unknown,
    // a frame of another member: 31
    Member,
    // a number outside the circle, or another number than 000000 in a session frame: 32
    Number,
    // the number due is not held, so there is nothing to take: 33
    NotHeld,
    // the book has no place, or the trade's place is still open: 34
    NoBookPlace,
    // our own numbers are used up: 35
    UsedUp,
    // no fetch is due: 36
    NoFetchDue,
    // the contents of a trade to be posted, at offset 0: 16 to 19
    InTrade(FieldFault),
}

impl From<LineFault> for Refusal {
    ghost from_gives = { λ e r. r ≡ line_refusal e };

    fn from(e: LineFault) -> Refusal {
        let number = match e {
            LineFault::InFrame(fault) => return Refusal::from(fault),
            LineFault::InTrade(fault) => return Refusal::from(fault),
            LineFault::Short => 20,
            LineFault::Setting => 21,
            LineFault::Unknown => 22,
            LineFault::Member => 31,
            LineFault::Number => 32,
            LineFault::NotHeld => 33,
            LineFault::NoBookPlace => 34,
            LineFault::UsedUp => 35,
            LineFault::NoFetchDue => 36,
        };
        Refusal {
            number,
            layer: Layer::Line,
            offset: 0,
        }
    }
}

impl From<FrameFault> for LineFault {
    ghost from_gives = { λ e r. r ≡ InFrame e };

    fn from(e: FrameFault) -> LineFault {
        LineFault::InFrame(e)
    }
}
