// Runs: one call, a list of calls, and a list from set-up on. Session, line, hold and book are lent apart, as a line's calls take them;
// what ties them before and after a call is said in each contract, since no type's invariant can. begin and run refuse as set_up does,
// and say so again, since each is called by itself.
ghost use Rattle.frame.specs.declared.faults.LineFault.TheVariants.{Setting};
ghost use Rattle.line.specs.Settings.{Ranges};
ghost use Rattle.runs.specs.Law.{Decided, Law};
ghost use Rattle.runs.specs.Told.{Tell, event_of, told};
ghost use Rattle.runs.specs.Words.{History};
ghost use Rattle.std.specs.Prelude.{◌≡◌, ℕ, [], ◌∷◌, length, IfOk, MatchResult, OnErr, OnOk};

use crate::{Reply, Request, Turn};
use book::Book;
use frame::faults::LineFault;
use frame::session::Open;
use hold::Hold;
use line::setting::set_up;
use line::{Line, Settings};

// Sets a line up: it tells the run of no call yet.
pub fn begin<H: Hold>(
    settings: Settings,
    hold: &mut H,
    book: &mut Book<'_>,
) -> Result<Line, LineFault>
    ensures tells_no_call { IfOk result (λ line. (line.settings ≡ settings) × Tell settings (length (H.cells hold.old)) (H.most hold.old) (length book.old.entries) [] line (H.cells hold.new) book.new) }
    ensures in_range { MatchResult result (λ _. Ranges settings) (λ e. (e ≡ Setting) × (Ranges settings → ⊥)) }
    ensures most_unchanged { H.most hold.new ≡ H.most hold.old }
    ensures refusal_changes_nothing { OnErr result ((H.cells hold.new ≡ H.cells hold.old) × (book.new ≡ book.old)) }
{
    set_up(settings, hold, book)
}

// Makes the call that the turn asks for, and sets its reply. Whatever history the line, the hold and the book tell, the
// history with this call keeps the law, and they tell it.
pub fn answer<H: Hold>(
    session: &Open,
    line: &mut Line,
    hold: &mut H,
    book: &mut Book<'_>,
    turn: &mut Turn<'_>,
)
    ensures law { (h : History) → (P U : ℕ) → Tell line.old.settings P (H.most hold.old) U h line.old (H.cells hold.old) book.old → Law line.old.settings P (H.most hold.old) U (event_of turn.old turn.new ∷ h) }
    ensures tells_this_call { (h : History) → (P U : ℕ) → Tell line.old.settings P (H.most hold.old) U h line.old (H.cells hold.old) book.old → Tell line.old.settings P (H.most hold.old) U (event_of turn.old turn.new ∷ h) line.new (H.cells hold.new) book.new }
    ensures set_up_unchanged { line.new.settings ≡ line.old.settings }
    ensures most_unchanged { H.most hold.new ≡ H.most hold.old }
    ensures request_unchanged { turn.new.request ≡ turn.old.request }
{
    // The reply is set in each arm. One assignment from the match was tried: its proof no longer knows which call was made.
    match &turn.request {
        Request::Arrival(frame) => turn.reply = Reply::Arrival(line.arrive(
            session, hold, book, frame,
        )),
        Request::Take => turn.reply = Reply::Take(line.take(session, hold, book, &mut turn.output)),
        Request::Tick => turn.reply = Reply::Tick(line.tick(session, hold)),
        Request::Fetch => turn.reply = Reply::Fetch(line.fetch(session, hold, &mut turn.output)),
        Request::Status => turn.reply = Reply::Status(line.status(session, hold, book)),
        Request::Posting(trade) => turn.reply = Reply::Posting(line.post(
            session,
            book,
            trade,
            &mut turn.output,
        )),
    }
}

// Makes the calls of the turns in their order. Whatever history the line, the hold and the book tell, the history with
// these calls keeps the law, and they tell it.
pub fn go_on<H: Hold>(
    session: &Open,
    line: &mut Line,
    hold: &mut H,
    book: &mut Book<'_>,
    turns: &mut [Turn<'_>],
)
    ensures law { (h : History) → (P U : ℕ) → Tell line.old.settings P (H.most hold.old) U h line.old (H.cells hold.old) book.old → Law line.old.settings P (H.most hold.old) U (told h turns.old turns.new) }
    ensures tells_these_calls { (h : History) → (P U : ℕ) → Tell line.old.settings P (H.most hold.old) U h line.old (H.cells hold.old) book.old → Tell line.old.settings P (H.most hold.old) U (told h turns.old turns.new) line.new (H.cells hold.new) book.new }
    ensures set_up_unchanged { line.new.settings ≡ line.old.settings }
    ensures most_unchanged { H.most hold.new ≡ H.most hold.old }
{
    for turn in turns.iter_mut() {
        answer(session, line, hold, book, turn);
    }
}

// Sets a line up and makes the calls of the turns in their order: every such run keeps the law. 21, and nothing is
// changed, if a value is outside its range.
pub fn run<H: Hold>(
    session: &Open,
    settings: Settings,
    hold: &mut H,
    book: &mut Book<'_>,
    turns: &mut [Turn<'_>],
) -> Result<Line, LineFault>
    ensures law { OnOk result (Law settings (length (H.cells hold.old)) (H.most hold.old) (length book.old.entries) (told [] turns.old turns.new)) }
    ensures tells_these_calls { IfOk result (λ line. Tell settings (length (H.cells hold.old)) (H.most hold.old) (length book.old.entries) (told [] turns.old turns.new) line (H.cells hold.new) book.new) }
    ensures in_range { MatchResult result (λ _. Ranges settings) (λ e. (e ≡ Setting) × (Ranges settings → ⊥)) }
    ensures refusal_changes_nothing { OnErr result ((H.cells hold.new ≡ H.cells hold.old) × (book.new ≡ book.old) × (turns.new ≡ turns.old)) }
{
    let mut line = begin(settings, hold, book)?;
    go_on(session, &mut line, hold, book, turns);
    Ok(line)
}

// The law leaves nothing open: two runs with the same calls that both keep it are equal in every answer and every byte.
pub fn law_decides()
    ensures every_answer_and_every_byte { Decided }
{}
