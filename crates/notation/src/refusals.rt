// Refusals. Each says three things: a number, the layer that it comes from, and the byte where it stands.
// A fault is a layer's own type; it goes up by `?`, and as a `Refusal` it is told as number, layer and offset.
ghost use Rattle.notation.specs.Refusals.{field_refusal, text_refusal};
ghost use Rattle.notation.specs.declared.refusals.TextFault.TheVariants.{Within};
ghost use Rattle.notation.specs.Words.{layer_words, meaning, refusal_words};
ghost use Rattle.std.specs.Prelude.{◌≡◌, Some};

use std::fmt;

#[derive(Clone, Copy, PartialEq, Eq, Debug)]
pub enum Layer {
    Frame,
    Text,
    Field,
    Line,
}

impl fmt::Display for Layer {
    ghost output = { λ l. Some (layer_words l) };

    fn fmt<W: fmt::Write>(&self, f: &mut fmt::Formatter<W>) -> fmt::Result {
        f.write_str(match self {
            Layer::Frame => "frame",
            Layer::Text => "text",
            Layer::Field => "field",
            Layer::Line => "line",
        })
    }
}

// What callers and operators are told. The number stays a number, since they know it as one; the faults are the enums.
#[derive(Clone, Copy, PartialEq, Eq, Debug)]
pub struct Refusal {
    pub number: u8,
    pub layer: Layer,
    pub offset: usize,
}

// As a person reads it: `16 (contents not of the notation), layer field, byte 23`.
impl fmt::Display for Refusal {
    ghost output = { λ r. Some (refusal_words r) };

    fn fmt<W: fmt::Write>(&self, f: &mut fmt::Formatter<W>) -> fmt::Result {
        let words = meaning(self.number);
        write!(
            f,
            "{} ({words}), layer {}, byte {}",
            self.number, self.layer, self.offset
        )
    }
}

// A refusal's number in words.
fn meaning(number: u8) -> &'static str
    ensures by_number { result.now ≡ meaning number }
{
    match number {
        11 => "frame too short or too long",
        12 => "header malformed",
        13 => "type not taken",
        14 => "length not true",
        15 => "label missing or out of order",
        16 => "contents not of the notation",
        17 => "code not listed",
        18 => "no such date or time",
        19 => "pieces contradict",
        20 => "output too short",
        21 => "setting out of range",
        22 => "request not known",
        31 => "frame of another member",
        32 => "number outside the circle",
        33 => "number due not held",
        34 => "no place in the book",
        35 => "numbers used up",
        36 => "no fetch due",
        _ => "refused",
    }
}

// What is wrong with a field's contents; of several faults the first in this order is told.
#[derive(Clone, Copy, PartialEq, Eq, Debug)]
pub enum Why {
    // the contents are not of the field's notation: 16
    Notation,
    // a code or a place that is not listed: 17
    Code,
    // no such date or time: 18
    Moment,
    // the pieces contradict each other: 19
    Pieces,
}

// A fault in a field, and where it stands.
#[derive(Clone, Copy, PartialEq, Eq, Debug)]
pub struct FieldFault {
    pub why: Why,
    pub offset: usize,
}

impl From<FieldFault> for Refusal {
    ghost from_gives = { λ e r. r ≡ field_refusal e };

    fn from(e: FieldFault) -> Refusal {
        let number = match e.why {
            Why::Notation => 16,
            Why::Code => 17,
            Why::Moment => 18,
            Why::Pieces => 19,
        };
        Refusal {
            number,
            layer: Layer::Field,
            offset: e.offset,
        }
    }
}

// A fault in a text: a label that is absent or out of order, or bytes behind the last field (15), or a fault in one of its fields.
#[derive(Clone, Copy, PartialEq, Eq, Debug)]
pub enum TextFault {
    // where the label should start
    Label(usize),
    Within(FieldFault),
}

impl From<TextFault> for Refusal {
    ghost from_gives = { λ e r. r ≡ text_refusal e };

    fn from(e: TextFault) -> Refusal {
        match e {
            TextFault::Label(offset) => Refusal {
                number: 15,
                layer: Layer::Text,
                offset,
            },
            TextFault::Within(fault) => Refusal::from(fault),
        }
    }
}

// A field's fault is told with the place that it has in the text already.
impl From<FieldFault> for TextFault {
    ghost from_gives = { λ e r. r ≡ Within e };

    fn from(e: FieldFault) -> TextFault {
        TextFault::Within(e)
    }
}
