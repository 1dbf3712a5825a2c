// The occupancy mask: one bit for each of up to 64 places.
ghost use Rattle.std.specs.Prelude.{◌≡◌, ℕ, ◌<◌, ◌≤◌, Bool, true, false, List, length, set, replicate, slice_set};
ghost use Rattle.table.specs.Masks.{Shows, trues};

// Bit k is set while place k is taken.
#[derive(Clone, Copy, PartialEq, Eq, Debug)]
pub struct Mask {
    bits: u64,
}

impl Mask {
    // Every place free.
    pub fn new() -> Mask
        ensures all_free { (n : ℕ) → n ≤ 64 → Shows result.bits (replicate n false) }
    {
        Mask { bits: 0 }
    }

    pub fn occupy(&mut self, place: usize)
        ensures mask_after { (places : List Bool) → place < length places → Shows self.old.bits places → Shows self.new.bits (slice_set places place true) }
        ensures no_such_place { 64 ≤ place → self.new.bits ≡ self.old.bits }
    {
        if place < 64 {
            self.bits |= 1u64 << place;
        }
    }

    pub fn free(&mut self, place: usize)
        ensures mask_after { (places : List Bool) → Shows self.old.bits places → Shows self.new.bits (slice_set places place false) }
    {
        if place < 64 {
            self.bits &= !(1u64 << place);
        }
    }

    // How many places are taken: the ones of the mask.
    #[tactic(auto, using(crate::proofs::Masks::ones_mask))]
    pub fn count(&self) -> usize
        ensures answer { (places : List Bool) → Shows self.now.bits places → result ≡ trues places }
    {
        self.bits.count_ones() as usize
    }
}
