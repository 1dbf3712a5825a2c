// The hold without a place: every early frame is only noted.
ghost use Rattle.std.specs.Prelude.{[]};

use crate::Hold;

#[derive(Clone, Copy, PartialEq, Eq, Debug)]
pub struct Empty;

impl Hold for Empty {
    ghost cells = { λ _. [] };

    ghost most = { λ _. 0 };

    fn places(&self) -> usize {
        0 // no place
    }

    fn keep(&mut self, _place: usize, _frame: &[u8]) -> bool {
        false // no place to keep it at
    }

    fn drop(&mut self, _place: usize) {}

    fn look(&self, _place: usize) -> Option<usize> {
        None
    }

    fn copy(&self, _place: usize, _out: &mut [u8]) -> bool {
        false // nothing to write
    }

    #[tactic(auto, unfolding(table::specs::Places::taken_places))]
    fn taken(&self) -> usize {
        0 // none is taken
    }
}
