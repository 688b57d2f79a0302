//! What an accepted change does, and how it is done, which takes no memory.

ghost use Rattle.std.specs.Prelude.{◌≡◌, ◌≤◌, false};
ghost use Rattle.command_types.specs.Execution.{IsExecutable};
ghost use Rattle.command_types.specs.Plans.{count_of, executed, is_new, thawed};
ghost use Rattle.command_types.specs.CycleRefusals.{is_crossed};
ghost use Rattle.command_types.specs.Tolerances.{with_setting};
ghost use Rattle.cycle_states.specs.Ballot.{planned_rows};
ghost use Rattle.cycle_states.specs.Effects.{applied, rows_with, settings_with, taken_with, MayApply};
ghost use Rattle.cycle_states.specs.Machine.{state_with, IsBookOf, IsYoung};

use super::cycle::Cycle;
use super::freezing::freeze;
use command_types::{Listed, Mode, PlanRow, Roster, Side, ToleranceRow};
use network_laws::Solution;
use product_book::Book;
use tolerance_sets::Tolerances;
use units_core::{Amount, Day, MemberNo, ProductNo};

/// What an accepted change does, with all that it takes in hand, so that it is done without memory.
#[derive(Drop)]
pub(super) enum Effect {
    /// The parties and the product of a TRADE, by their places, put a trade last.
    Allege {
        seller: MemberNo,
        buyer: MemberNo,
        product: ProductNo,
        amount: Amount,
        day: Day,
        submitter: Side,
    },
    /// The trade becomes live.
    Affirm {
        trade: u64,
    },
    /// The trade ends, or this side's mark is set; the end of a frozen one breaks the cycle.
    End {
        trade: u64,
        side: Side,
    },
    /// This side holds the trade.
    Hold {
        trade: u64,
        side: Side,
    },
    /// This side holds the trade no longer.
    Free {
        trade: u64,
        side: Side,
    },
    /// A member's setting towards another.
    Set(ToleranceRow),
    /// The next cycle opens with the trades that the day takes.
    Freeze {
        day: Day,
    },
    /// The next version begins in this mode, with all that members have set.
    Begin {
        mode: Mode,
    },
    /// These solutions are proposed, and what they change.
    Propose {
        solutions: Listed<Solution>,
        plan: Listed<PlanRow>,
    },
    /// This plan touches nobody, and is executed at once.
    Execute {
        plan: Listed<PlanRow>,
    },
    /// The last vote: the proposed plan is executed.
    Complete,
    /// The member's vote is put last.
    Vote {
        member: MemberNo,
    },
    /// The proposal is dropped.
    Decline,
    /// The cycle is over.
    Cancel,
    /// Of a read: nothing.
    Keep,
}

// Executes the plan, and ends the freeze.
fn execute(book: &mut Book, plan: &[PlanRow])
    requires room { count_of is_new plan.now ≤ book.old.spare }
    requires plan { IsExecutable book.old.members book.old.products book.old.rows plan.now }
    ensures rows { book.new.rows ≡ thawed (executed plan.now book.old.rows) }
    ensures members { book.new.members ≡ book.old.members }
    ensures products { book.new.products ≡ book.old.products }
{
    book.execute(plan);
    book.thaw();
}

// Makes a setting whose ceiling is not below its floor.
fn set(tolerances: &mut Tolerances, row: ToleranceRow)
    requires fits { is_crossed row.floor row.ceiling ≡ false }
    requires room { 1 ≤ tolerances.old.spare }
    ensures settings { tolerances.new.settings ≡ with_setting row tolerances.old.settings }
    ensures taken { tolerances.new.taken ≡ tolerances.old.taken }
{
    match tolerances.set(
        row.member,
        row.product,
        row.other,
        row.side,
        row.floor,
        row.ceiling,
    ) {
        Ok(()) => {}
        Err(_) => unreachable!(),
    }
}

/// Does what an accepted change does.
pub(super) fn apply(
    roster: &Roster,
    book: &mut Book,
    tolerances: &mut Tolerances,
    cycle: &mut Cycle,
    effect: Effect,
)
    requires book { IsBookOf roster.now book.old.members book.old.products }
    requires young { IsYoung cycle.old }
    requires may { MayApply (state_with roster.now book.old.rows tolerances.old.settings cycle.old) effect }
    requires planned { planned_rows cycle.old ≤ book.old.spare }
    requires room { rows_with effect (planned_rows cycle.old) ≤ book.old.spare }
    requires slot { settings_with effect ≤ tolerances.old.spare }
    ensures state { state_with roster.now book.new.rows tolerances.new.settings cycle.new ≡ applied (state_with roster.now book.old.rows tolerances.old.settings cycle.old) effect }
    ensures members { book.new.members ≡ book.old.members }
    ensures products { book.new.products ≡ book.old.products }
    ensures taken { tolerances.new.taken ≡ taken_with effect tolerances.old }
    ensures planned { planned_rows cycle.new ≤ book.new.spare }
{
    match effect {
        Effect::Allege {
            seller,
            buyer,
            product,
            amount,
            day,
            submitter,
        } => {
            book.allege(seller, buyer, product, amount, day, submitter);
        }
        Effect::Affirm { trade } => book.affirm(trade),
        Effect::End { trade, side } => {
            cycle.after_end(trade, book.get(trade).copied());
            book.end_by(trade, side);
        }
        Effect::Hold { trade, side } => book.hold(trade, side),
        Effect::Free { trade, side } => book.free(trade, side),
        Effect::Set(row) => set(tolerances, row),
        Effect::Freeze { day } => {
            freeze(roster, book, day);
            cycle.open(day);
        }
        Effect::Begin { mode } => {
            cycle.begin(roster, book, tolerances, mode);
            tolerances.take();
        }
        Effect::Propose { solutions, plan } => {
            cycle.propose(solutions.into_rows(), plan.into_rows())
        }
        Effect::Execute { plan } => {
            execute(book, plan.rows());
            cycle.close();
        }
        Effect::Complete => {
            execute(book, cycle.plan());
            cycle.close();
        }
        Effect::Vote { member } => cycle.add_vote(member),
        Effect::Decline => cycle.decline(),
        Effect::Cancel => {
            book.thaw();
            cycle.close();
        }
        Effect::Keep => {}
    }
}
