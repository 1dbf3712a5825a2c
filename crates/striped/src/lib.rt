// The striped hold: each place has a stripe of the lent bytes to itself, long enough for the longest frame.
#![tactic(auto)]

ghost use Rattle.std.specs.Prelude.{◌≡◌, ◌≤◌, map, length, is_some};
ghost use Rattle.striped.specs.Stripes.{Short};
ghost use Rattle.table.specs.Masks.{mask_of};

use arrayvec::ArrayVec;
use table::mask::Mask;

pub mod calls;

// A stripe is as long as the longest frame.
pub const STRIPE: usize = 1023;

#[derive(Drop)]
pub struct Striped<'a> {
    stripes: &'a mut [[u8; STRIPE]],
    // the length of the frame in each stripe
    lens: ArrayVec<Option<u16>, 32>,
    mask: Mask,
    ghost few: { length lens.items ≤ 32 },
    ghost whole: { length stripes.now ≡ length lens.items },
    ghost short: { Short lens.items },
    ghost tied: { mask.bits ≡ mask_of (map is_some lens.items) },
}
