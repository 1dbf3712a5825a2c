// Setting a line up.
ghost use Rattle.book.specs.Ledger.{blank};
ghost use Rattle.line.specs.Settings.{Ranges};
ghost use Rattle.line.specs.Steps.{start};
ghost use Rattle.line.specs.View.{view};
ghost use Rattle.std.specs.Prelude.{◌≡◌, length, IfOk, MatchResult, OnErr, OnOk};
ghost use Rattle.frame.specs.declared.faults.LineFault.TheVariants.{Setting};

use crate::{Line, Settings};
use book::Book;
use frame::faults::LineFault;
use hold::{Hold, drop_all};

impl Settings {
    // Whether every value is in its range; if not, set-up refuses with 21.
    fn check(&self) -> Result<(), LineFault>
        ensures in_range { MatchResult result (λ _. Ranges self.now) (λ e. (e ≡ Setting) × (Ranges self.now → ⊥)) }
    {
        let first = self.circle.first.0;
        let last = self.circle.last.0;
        if self.member > 9999 || first < 1 || first > last || last > 999999 {
            return Err(LineFault::Setting);
        }
        if self.tries < 1 || self.tries > 9 || self.wait < 1 || self.wait > 600 {
            return Err(LineFault::Setting);
        }
        Ok(())
    }
}

// A line at the first number of its circle, over a hold and a book that are emptied; 21, and nothing is emptied, if a
// value is outside its range.
pub fn set_up<H: Hold>(
    settings: Settings,
    hold: &mut H,
    book: &mut Book<'_>,
) -> Result<Line, LineFault>
    ensures in_range { MatchResult result (λ _. Ranges settings) (λ e. (e ≡ Setting) × (Ranges settings → ⊥)) }
    ensures line_at_the_first { IfOk result (λ line. (line.settings ≡ settings) × (view line (H.cells hold.new) ≡ start settings (length (H.cells hold.old)))) }
    ensures book_emptied { OnOk result (book.new ≡ blank (length book.old.entries)) }
    ensures most_unchanged { H.most hold.new ≡ H.most hold.old }
    ensures refusal_changes_nothing { OnErr result ((H.cells hold.new ≡ H.cells hold.old) × (book.new ≡ book.old)) }
{
    settings.check()?;
    drop_all(hold);
    book.clear();
    let first = settings.circle.first;
    Ok(Line {
        settings,
        next: first,
        top: first,
        wait: None,
    })
}
