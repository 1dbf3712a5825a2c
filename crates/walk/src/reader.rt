// A reader stands over a text and moves from field to field.
ghost use Rattle.std.specs.Prelude.{◌≡◌, ◌+◌, ◌++◌, MatchOption};
ghost use Rattle.walk.specs.Walk.{left, Absent, Entered, Passed, Ended};

use crate::lines::split_line;
use notation::part::Part;
use notation::refusals::{FieldFault, TextFault, Why};

// A text, and how far it is read. Not the rest alone: a fault is told by its place in the text.
#[derive(Clone, Copy, PartialEq, Eq, Debug)]
pub struct Reader<'a> {
    text: &'a [u8],
    at: usize,
}

// What follows the label.
fn after<'a>(s: &'a [u8], label: &[u8]) -> Option<&'a [u8]>
    ensures { MatchOption result (Absent label.now s.now) (λ t. s.now ≡ label.now ++ t.now) }
{
    s.strip_prefix(label)
}

impl<'a> Reader<'a> {
    pub fn new(text: &'a [u8]) -> Reader<'a>
        ensures at_the_start { (result.text.now ≡ text.now) × (result.at ≡ 0) }
    {
        Reader { text, at: 0 }
    }

    // How far the text is read.
    pub fn place(&self) -> usize
        ensures offset { result ≡ self.now.at }
    {
        self.at
    }

    // What is yet to be read.
    fn rest(&self) -> &'a [u8]
        ensures { result.now ≡ left self.now }
    {
        let text = self.text;
        text.get(self.at..).unwrap_or(&[])
    }

    // Passes the label, if it stands next.
    pub fn enter(&mut self, label: &[u8]) -> bool
        ensures entered { Entered label.now self.old self.new result }
    {
        let stands = after(self.rest(), label).is_some();
        if stands {
            self.at += label.len();
        }
        stands
    }

    // Passes contents and the CR LF that ends them.
    pub fn contents(&mut self) -> Result<Part<'a>, FieldFault>
        ensures passed { Passed self.old self.new result }
    {
        let at = self.at;
        let (bytes, _) = split_line(self.rest()).ok_or(FieldFault {
            why: Why::Notation,
            offset: at,
        })?;
        self.at = at + (bytes.len() + 2);
        Ok(Part { bytes, at })
    }

    // Nothing follows.
    pub fn end(&self) -> Result<(), TextFault>
        ensures ended { Ended self.now result }
    {
        if !self.rest().is_empty() {
            return Err(TextFault::Label(self.at));
        }
        Ok(())
    }
}
