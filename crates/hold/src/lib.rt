// Holds: where frames that arrive early wait for their turn.
#![tactic(auto)]

ghost use Rattle.std.specs.Prelude.{◌≡◌, ℕ, ◌≤◌, ◌++◌, length, drop, replicate, if◌then◌else◌, Some, None, option_copied, slice_set};
ghost use Rattle.hold.specs.Meaning.{Cells, cell_at, comes_back, copied, copies, frame_length, frame_sized, stores};
ghost use Rattle.table.specs.Places.{taken_places};

pub mod empty;
pub mod operations;

// A hold by its meaning. Everything above a hold is proved against `cells` and `most` alone.
// Only `drop`, and a `keep` that stores, change what the places hold; nothing changes how many places there are, or
// the most bytes in all. Each call says so in a clause, since a type's invariant cannot tie what is after a call to what was before.
pub trait Hold {
    // what each place holds
    ghost cells: { Self → Cells };

    // the most bytes that all places hold together
    ghost most: { Self → ℕ };

    // How many places there are.
    fn places(&self) -> usize
        ensures answer { result ≡ length (cells self.now) }
        ensures at_most_64 { result ≤ 64 };

    // Stores the frame at the place, or says no: no such place, not empty, not 23 to 1,023 bytes, or no room.
    fn keep(&mut self, place: usize, frame: &[u8]) -> bool
        ensures answer { result ≡ stores (cells self.old) (most self.old) place (length frame.now) }
        ensures cells_after { cells self.new ≡ (if result then slice_set (cells self.old) place (Some frame.now) else cells self.old) }
        ensures most_unchanged { most self.new ≡ most self.old };

    // Empties the place.
    fn drop(&mut self, place: usize)
        ensures cells_after { cells self.new ≡ slice_set (cells self.old) place None }
        ensures most_unchanged { most self.new ≡ most self.old };

    // The length of the frame at the place, or none.
    fn look(&self, place: usize) -> Option<usize>
        ensures answer { result ≡ frame_length (cell_at (cells self.now) place) };

    // Writes the frame at the place to the front of the output; no, and nothing is written, if there is none or the
    // output is shorter.
    fn copy(&self, place: usize, out: &mut [u8]) -> bool
        ensures answer { result ≡ copies (cell_at (cells self.now) place) (length out.old) }
        ensures output { out.new ≡ copied (cell_at (cells self.now) place) out.old };

    // How many places are taken.
    fn taken(&self) -> usize
        ensures answer { result ≡ taken_places (cells self.now) };
}

// Whether a frame may have so many bytes: 23 to 1,023.
pub fn is_frame_length(length: usize) -> bool
    ensures answer { result ≡ frame_sized length }
{
    (23..=1023).contains(&length)
}

// What `copy` does, given what the place holds.
pub fn copy_frame(frame: Option<&[u8]>, out: &mut [u8]) -> bool
    ensures answer { result ≡ copies (option_copied frame.entry) (length out.old) }
    ensures output { out.new ≡ copied (option_copied frame.entry) out.old }
{
    match frame {
        Some(frame) if frame.len() <= out.len() => {
            out[..frame.len()].copy_from_slice(frame);
            true
        }
        _ => false,
    }
}

// Empties every place, by its number, which is what a hold's calls take.
#[tactic(auto, using(crate::proofs::Cells::dropped_more))]
pub fn drop_all<H: Hold>(hold: &mut H)
    ensures all_empty { H.cells hold.new ≡ replicate (length (H.cells hold.old)) None }
    ensures most_unchanged { H.most hold.new ≡ H.most hold.old }
{
    for place in 0..hold.places() {
        hold.drop(place);
    }
}

// Tries a place out: stores the frame, looks at it, copies it back and drops it. The frame's length as the hold told it,
// if the frame came back whole; the hold is as before in any case.
#[tactic(auto, using(crate::proofs::Cells::dropped_again))]
pub fn try_out<H: Hold>(hold: &mut H, place: usize, frame: &[u8], out: &mut [u8]) -> Option<usize>
    ensures answer { result ≡ (if comes_back (H.cells hold.old) (H.most hold.old) place (length frame.now) (length out.old) then Some (length frame.now) else None) }
    ensures output { out.new ≡ (if comes_back (H.cells hold.old) (H.most hold.old) place (length frame.now) (length out.old) then frame.now ++ drop (length frame.now) out.old else out.old) }
    ensures cells_unchanged { H.cells hold.new ≡ H.cells hold.old }
    ensures most_unchanged { H.most hold.new ≡ H.most hold.old }
{
    if !hold.keep(place, frame) {
        return None;
    }
    let length = hold.look(place);
    let came_back = hold.copy(place, out);
    hold.drop(place);
    if came_back { length } else { None } // filter is no plainer
}
