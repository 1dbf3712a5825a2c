// The packed hold: frames end to end in lent bytes, and a lent span for each place that tells where its frame lies.
#![tactic(auto)]

ghost use Rattle.std.specs.Prelude.{◌≡◌, ◌≤◌, map, length, is_some};
ghost use Rattle.packed.specs.Spans.{Apart, Inside, total};
ghost use Rattle.table.specs.Masks.{mask_of};

use table::Table;
use table::mask::Mask;

pub mod calls;

// Where a frame lies: `len` bytes from `start` on.
#[derive(Clone, Copy, PartialEq, Eq, Debug)]
pub struct Span {
    start: u16,
    len: u16,
}

#[derive(Drop)]
pub struct Packed<'a> {
    spans: Table<'a, Span>,
    bytes: &'a mut [u8],
    // the frames fill the first `used` bytes, with no gap; a number beside lent memory, which has no length of its own that is filled
    used: usize,
    mask: Mask,
    ghost few: { length spans ≤ 64 },
    ghost small: { length bytes.now ≤ 65535 },
    ghost fits: { used ≤ length bytes.now },
    ghost full: { used ≡ total spans },
    ghost inside: { Inside used spans },
    ghost apart: { Apart spans },
    ghost tied: { mask.bits ≡ mask_of (map is_some spans) },
}
