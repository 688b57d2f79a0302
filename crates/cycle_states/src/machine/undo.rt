//! How a change that was made last is taken back.

ghost use Rattle.std.specs.Prelude.{◌≡◌, Some, is_some, IsTrue, IfSome};
ghost use Rattle.command_types.specs.declared.figures.State.{State};
ghost use Rattle.command_types.specs.History.{is_recorded};
ghost use Rattle.command_types.specs.Machine.{answer_to, state_after};
ghost use Rattle.command_types.specs.Trades.{trade_numbered};
ghost use Rattle.cycle_states.specs.Effects.{applied, MayApply};
ghost use Rattle.cycle_states.specs.Ready.{IsReady};
ghost use Rattle.cycle_states.specs.Undo.{goes_back, is_of_one_row, only_marks, undone, rows_undone, LeadsBack, MayTakeBack, MayUndo, PutsBack, Undoes};

use super::Machine;
use super::effect::Effect;
use super::ready::Ready;
use super::sides::is_alleged;
use command_types::TradeRow;
use product_book::Book;

/// What was before a change that adds a trade, or changes one and nothing else.
#[derive(Drop)]
pub enum Undo {
    /// The last trade was not there.
    TakeBack,
    /// The trade with its number was this.
    PutBack(TradeRow),
}

// Whether an END of the trade only marks it.
fn only_marks(row: &TradeRow) -> bool
    ensures { result ≡ only_marks (Some row.now) }
{
    !(is_alleged(row) || row.mark.is_some())
}

// The trade as it is.
fn put_back(book: &Book, trade: u64) -> Option<Undo>
    ensures was { IfSome result (PutsBack book.now.rows trade) }
    ensures there { is_some result ≡ is_some (trade_numbered book.now.rows trade) }
{
    match book.get(trade) {
        Some(row) => Some(Undo::PutBack(*row)),
        None => None,
    }
}

// The trade as it is, where an END only marks it.
fn put_back_unmarked(book: &Book, trade: u64) -> Option<Undo>
    ensures was { IfSome result (PutsBack book.now.rows trade) }
    ensures marks { is_some result ≡ only_marks (trade_numbered book.now.rows trade) }
{
    match book.get(trade) {
        Some(row) => {
            if only_marks(row) {
                Some(Undo::PutBack(*row))
            } else {
                None
            }
        }
        None => None,
    }
}

// What takes back what is done in this book, exactly if that adds a trade, or changes one and nothing else.
fn undo_for(book: &Book, effect: &Effect) -> Option<Undo>
    ensures back { (s : State) → s.trades ≡ book.now.rows → MayApply s effect.now → IfSome result (LeadsBack s (applied s effect.now)) }
    ensures some { (s : State) → s.trades ≡ book.now.rows → MayApply s effect.now → is_some result ≡ is_of_one_row s.trades effect.now }
{
    match effect {
        Effect::Allege { .. } => Some(Undo::TakeBack),
        Effect::Affirm { trade } => put_back(book, *trade),
        Effect::End { trade, .. } => put_back_unmarked(book, *trade),
        Effect::Hold { trade, .. } => put_back(book, *trade),
        Effect::Free { trade, .. } => put_back(book, *trade),
        Effect::Set(_)
        | Effect::Freeze { .. }
        | Effect::Begin { .. }
        | Effect::Propose { .. }
        | Effect::Execute { .. }
        | Effect::Complete
        | Effect::Vote { .. }
        | Effect::Decline
        | Effect::Cancel
        | Effect::Keep => None,
    }
}

// Takes back in the book what was done last.
fn take_back(book: &mut Book, undo: &Undo)
    requires { MayTakeBack book.old.rows undo.now }
    ensures { book.new ≡ record book.old { rows = rows_undone book.old.rows undo.now } }
{
    match undo {
        Undo::TakeBack => book.take_back(),
        Undo::PutBack(row) => book.put_back(row.number, row),
    }
}

impl Machine {
    /// What takes a change back that is ready, once it is made: of a TRADE, an AFFIRM, an END that only marks, a HOLD and a FREE. It
    /// takes no memory.
    pub fn undo_of(&self, ready: &Ready) -> Option<Undo>
        requires accepted { IsTrue (is_recorded ready.now.entry.ask.what (answer_to self.now.state ready.now.entry.ask)) }
        requires ready { IsReady self.now.state ready.now }
        ensures some { is_some result ≡ goes_back self.now.state ready.now.entry.ask.what }
        ensures back { IfSome result (Undoes self.now.state (state_after self.now.state ready.now.entry.ask)) }
    {
        undo_for(&self.book, ready.effect())
    }

    /// Takes the change back that was made last. It takes no memory and can't fail.
    pub fn undo(&mut self, undo: &Undo)
        requires { MayUndo self.old.state undo.now }
        ensures { self.new ≡ record self.old { state = undone self.old.state undo.now } }
    {
        take_back(&mut self.book, undo);
        // What a book says of its trades is what the ballot rests on.
        let _rows = self.book.rows();
    }
}
