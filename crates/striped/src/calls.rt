// The calls of the striped hold.
ghost use Rattle.std.specs.Prelude.{◌≡◌, ◌+◌, ◌*◌, ◌/◌, ◌<◌, ◌≤◌, ◌++◌, min, length, drop, replicate, Some, None, option_copied, slice_set};
ghost use Rattle.hold.specs.Meaning.{cell_at, stores};
ghost use Rattle.striped.specs.View.{cells_in, most_in};

use crate::{STRIPE, Striped};
use arrayvec::ArrayVec;
use hold::{Hold, copy_frame, is_frame_length};
use table::mask::Mask;

// Writes the frame to the front of the stripe.
fn write_stripe(stripe: &mut [u8; STRIPE], frame: &[u8])
    requires short { length frame.now ≤ 1023 }
    ensures after { stripe.new ≡ frame.now ++ drop (length frame.now) stripe.old }
{
    stripe[..frame.len()].copy_from_slice(frame);
}

impl<'a> Striped<'a> {
    // A hold with as many places as the bytes have whole stripes, 32 at most, and every place empty, whatever the bytes
    // were.
    pub fn new(bytes: &'a mut [u8]) -> Striped<'a>
        ensures all_empty { cells_in result ≡ replicate (min 32 (length bytes.old / 1023)) None }
        ensures most { most_in result ≡ min 32 (length bytes.old / 1023) * 1023 }
    {
        let (stripes, _) = bytes.as_chunks_mut::<STRIPE>();
        let places = stripes.len().min(32);
        let mut lens = ArrayVec::from([None; 32]);
        lens.truncate(places);
        Striped {
            stripes: &mut stripes[..places],
            lens,
            mask: Mask::new(),
        }
    }

    // The frame at the place, or none.
    #[tactic(auto, using(crate::proofs::Stripes::get_cells))]
    fn frame_at(&self, place: usize) -> Option<&[u8]>
        ensures frame { option_copied result ≡ cell_at (cells_in self.now) place }
    {
        let stripes: &[[u8; STRIPE]] = self.stripes;
        let len = self.lens.get(place).copied().flatten()?;
        Some(&stripes[place][..len as usize])
    }

    // Whether a frame of n bytes is stored at the place. An empty place always has room for a frame.
    #[tactic(auto, using(crate::proofs::Stripes::stores_if_empty, crate::proofs::Stripes::length_cells))]
    fn takes(&self, place: usize, n: usize) -> bool
        ensures answer { result ≡ stores (cells_in self.now) (most_in self.now) place n }
    {
        place < self.places() && is_frame_length(n) && self.frame_at(place).is_none()
    }

    // Stores the frame at the place.
    fn fill(&mut self, place: usize, frame: &[u8])
        requires below { place < length self.old.lens.items }
        requires short { length frame.now ≤ 1023 }
        ensures cells_after { cells_in self.new ≡ slice_set (cells_in self.old) place (Some frame.now) }
        ensures most_unchanged { most_in self.new ≡ most_in self.old }
    {
        // By field: an element is not lent out of a struct that has an invariant.
        let Striped {
            stripes,
            lens,
            mask,
        } = self;
        write_stripe(&mut stripes[place], frame);
        lens[place] = Some(frame.len() as u16);
        mask.occupy(place);
    }
}

impl<'a> Hold for Striped<'a> {
    ghost cells = { cells_in };

    ghost most = { most_in };

    #[tactic(auto, using(crate::proofs::Stripes::length_cells))]
    fn places(&self) -> usize {
        self.lens.len()
    }

    // The same lines in both holds that store; to share them would take a trait of its own for the two steps, and be no plainer.
    fn keep(&mut self, place: usize, frame: &[u8]) -> bool {
        let takes = self.takes(place, frame.len());
        if takes {
            self.fill(place, frame);
        }
        takes
    }

    #[tactic(auto, using(crate::proofs::Stripes::set_none, crate::proofs::Stripes::none_past))]
    fn drop(&mut self, place: usize) {
        if let Some(len) = self.lens.get_mut(place) {
            *len = None;
            self.mask.free(place);
        }
    }

    fn look(&self, place: usize) -> Option<usize> {
        self.frame_at(place).map(|frame| frame.len())
    }

    fn copy(&self, place: usize, out: &mut [u8]) -> bool {
        copy_frame(self.frame_at(place), out)
    }

    fn taken(&self) -> usize {
        self.mask.count()
    }
}
