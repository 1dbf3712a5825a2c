// The calls of the packed hold.
ghost use Rattle.std.specs.Prelude.{◌≡◌, ◌+◌, ◌≤◌, ◌<◌, min, map, length, replicate, Some, None, option_copied, slice_index_or, slice_set};
ghost use Rattle.hold.specs.Meaning.{bytes_held, cell_at, stores};
ghost use Rattle.packed.specs.Spans.{lowered};
ghost use Rattle.packed.specs.View.{cells_in, most_in};

use crate::{Packed, Span};
use hold::{Hold, copy_frame, is_frame_length};
use table::Table;
use table::mask::Mask;

// Lowers the span by n if it starts at `end` or behind.
fn lower(entry: &mut Option<Span>, end: u16, n: u16)
    requires { n ≤ end }
    ensures after { entry.new ≡ lowered end n entry.old }
{
    if let Some(span) = entry {
        if end <= span.start {
            span.start -= n;
        }
    }
}

fn lower_all(spans: &mut [Option<Span>], end: u16, n: u16)
    requires { n ≤ end }
    ensures spans_after { spans.new ≡ map (lowered end n) spans.old }
{
    for entry in spans.iter_mut() {
        lower(entry, end, n);
    }
}

impl<'a> Packed<'a> {
    // A hold over the first 64 spans and the first 65,535 bytes, or all if fewer, with every place empty, whatever the
    // spans and the bytes were.
    pub fn new(spans: &'a mut [Option<Span>], bytes: &'a mut [u8]) -> Packed<'a>
        ensures all_empty { cells_in result ≡ replicate (min 64 (length spans.old)) None }
        ensures most { most_in result ≡ min 65535 (length bytes.old) }
    {
        let places = spans.len().min(64);
        let most = bytes.len().min(65535);
        Packed {
            spans: Table::new(&mut spans[..places]),
            bytes: &mut bytes[..most],
            used: 0,
            mask: Mask::new(),
        }
    }

    // The frame at the place, or none.
    #[tactic(auto, using(crate::proofs::Spans::get_cells))]
    fn frame_at(&self, place: usize) -> Option<&[u8]>
        ensures frame { option_copied result ≡ cell_at (cells_in self.now) place }
    {
        let bytes: &[u8] = self.bytes;
        let span = self.spans.get(place)?;
        let start = span.start as usize;
        Some(&bytes[start..start + span.len as usize])
    }

    // How many bytes are free.
    #[tactic(auto, using(crate::proofs::Spans::bytes_cells))]
    fn room(&self) -> usize
        ensures answer { result + bytes_held (cells_in self.now) ≡ most_in self.now }
    {
        self.bytes.len() - self.used
    }

    // Whether a frame of n bytes is stored at the place.
    #[tactic(auto, using(crate::proofs::Spans::length_cells))]
    fn takes(&self, place: usize, n: usize) -> bool
        ensures answer { result ≡ stores (cells_in self.now) (most_in self.now) place n }
    {
        place < self.places()
            && is_frame_length(n)
            && n <= self.room()
            && self.frame_at(place).is_none()
    }

    // Puts the frame behind the others, and its span at the place.
    fn append(&mut self, place: usize, frame: &[u8])
        requires room { self.old.used + length frame.now ≤ most_in self.old }
        requires below { place < length self.old.spans }
        requires empty { slice_index_or self.old.spans place None ≡ None }
        ensures cells_after { cells_in self.new ≡ slice_set (cells_in self.old) place (Some frame.now) }
        ensures most_unchanged { most_in self.new ≡ most_in self.old }
    {
        let at = self.used;
        let end = at + frame.len();
        self.bytes[at..end].copy_from_slice(frame);
        self.spans.put(
            place,
            Span {
                start: at as u16,
                len: frame.len() as u16,
            },
        );
        self.mask.occupy(place);
        self.used = end;
    }
}

impl<'a> Hold for Packed<'a> {
    ghost cells = { cells_in };

    ghost most = { most_in };

    #[tactic(auto, using(crate::proofs::Spans::length_cells))]
    fn places(&self) -> usize {
        self.spans.places()
    }

    // The same lines in both holds that store; to share them would take a trait of its own for the two steps, and be no plainer.
    fn keep(&mut self, place: usize, frame: &[u8]) -> bool {
        let takes = self.takes(place, frame.len());
        if takes {
            self.append(place, frame);
        }
        takes
    }

    // Closes the gap that the frame leaves: what lies behind it moves down, and its spans with it.
    fn drop(&mut self, place: usize) {
        // By field: through `self` the proof owes the hold's invariant between the remove and the rest.
        let Packed {
            spans,
            bytes,
            used,
            mask,
        } = self;
        if let Some(span) = spans.remove(place) {
            let end = span.start + span.len;
            bytes.copy_within(end as usize..*used, span.start as usize);
            lower_all(spans.entries_mut(), end, span.len);
            mask.free(place);
            *used -= span.len as usize;
        }
    }

    fn look(&self, place: usize) -> Option<usize> {
        self.spans.get(place).map(|span| span.len as usize)
    }

    fn copy(&self, place: usize, out: &mut [u8]) -> bool {
        copy_frame(self.frame_at(place), out)
    }

    fn taken(&self) -> usize {
        self.mask.count()
    }
}
