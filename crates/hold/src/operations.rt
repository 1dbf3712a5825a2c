// Lists of keeps and drops, and the law that every hold keeps over them.
ghost use Rattle.hold.specs.Law.{Decided, History, Law};
ghost use Rattle.hold.specs.Told.{event_of, task_of, told};
ghost use Rattle.std.specs.Prelude.{◌≡◌, [], ◌∷◌, map, length};

use crate::{Hold, drop_all};

#[derive(Clone, Copy, PartialEq, Eq, Debug)]
pub enum Task<'a> {
    // keep the frame at the place
    Keep(usize, &'a [u8]),
    // drop what the place holds
    Drop(usize),
}

// A task, and whether it stored a frame; a drop never does. The answer stands beside the task, and not in a keep, since
// `perform` promises that the tasks stay as they are.
#[derive(Drop)]
pub struct Operation<'a> {
    pub task: Task<'a>,
    pub stored: bool,
}

fn perform_one<H: Hold>(hold: &mut H, operation: &mut Operation<'_>)
    ensures law { (h : History) → Law (length (H.cells hold.old)) (H.most hold.old) h (H.cells hold.old) → Law (length (H.cells hold.old)) (H.most hold.old) (event_of operation.new ∷ h) (H.cells hold.new) }
    ensures most_unchanged { H.most hold.new ≡ H.most hold.old }
    ensures task_unchanged { operation.new.task ≡ operation.old.task }
{
    operation.stored = match operation.task {
        Task::Keep(place, frame) => hold.keep(place, frame),
        Task::Drop(place) => {
            hold.drop(place);
            false // a drop stores nothing
        }
    };
}

// Empties the hold, performs the operations in their order, and sets in each whether it stored a frame.
#[tactic(auto, using(crate::proofs::Turns::law_more, crate::proofs::Turns::told_more, crate::proofs::Turns::tasks_same))]
pub fn perform<H: Hold>(hold: &mut H, operations: &mut [Operation<'_>])
    ensures law { Law (length (H.cells hold.old)) (H.most hold.old) (told [] operations.new) (H.cells hold.new) }
    ensures most_unchanged { H.most hold.new ≡ H.most hold.old }
    ensures tasks_unchanged { map task_of operations.new ≡ map task_of operations.old }
{
    drop_all(hold);
    for operation in operations.iter_mut() {
        perform_one(hold, operation);
    }
}

// The law leaves no answer open.
#[tactic(auto, using(crate::proofs::Laws::decided))]
pub fn law_decides()
    ensures answers_decided { Decided }
{}
