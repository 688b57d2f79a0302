//! The compression cycle: how far it has come, what its version began with, and what is proposed. The arrows are methods:
//!
//! ```text
//!     none --open--> frozen --begin--> solving --propose--> proposed --close--> none
//!                      ^                ^   |                   |
//!                      |                +---+ begin             |
//!                      +--------------- decline ----------------+
//!
//!     frozen, solving, proposed --after_end, where a frozen trade ended--> broken
//!     frozen, solving, proposed, broken --close, by a CANCEL--> none
//!     solving --close, where the posting touches nobody--> none
//! ```

ghost use Rattle.std.specs.Prelude.{◌≡◌, ◌<◌, ◌^◌, [], ◌∷◌, ◌++◌, length, None, IfOk, IfSome};
ghost use Rattle.command_types.specs.Cycles.{closed, opened, begun_with, proposed_with, declined, is_open, is_broken, is_solving, is_proposed, may_begin, may_break, has_limits, problems_of};
ghost use Rattle.command_types.specs.CycleSteps.{is_frozen_and_marked, cycle_after_end};
ghost use Rattle.units_core.specs.declared.limits.TheConstants.{MOST_MEMBERS};

use super::begun::Begun;
use command_types::{Mode, Phase, PlanRow, Roster, TradeRow};
use network_laws::{Problem, Solution};
use product_book::Book;
use std::alloc::{AllocError, Global};
use std::marker::Model;
use std::snapshot::Snapshot;
use tolerance_sets::Tolerances;
use units_core::{Day, MOST_MEMBERS, MemberNo};

/// Whether a cycle is open in this phase.
pub(super) fn is_open(phase: Phase) -> bool
    ensures { result ≡ is_open phase }
{
    phase != Phase::None
}

/// Whether the cycle is broken in this phase.
pub(super) fn is_broken(phase: Phase) -> bool
    ensures { result ≡ is_broken phase }
{
    phase == Phase::Broken
}

/// Whether solutions may be posted in this phase.
pub(super) fn is_solving(phase: Phase) -> bool
    ensures { result ≡ is_solving phase }
{
    phase == Phase::Solving
}

/// Whether a plan is proposed in this phase.
pub(super) fn is_proposed(phase: Phase) -> bool
    ensures { result ≡ is_proposed phase }
{
    phase == Phase::Proposed
}

/// Whether a version may begin in this phase.
pub(super) fn may_begin(phase: Phase) -> bool
    ensures { result ≡ may_begin phase }
{
    phase == Phase::Frozen || phase == Phase::Solving
}

/// Whether the limits of a version stand in this phase.
pub(super) fn has_limits(phase: Phase) -> bool
    ensures { result ≡ has_limits phase }
{
    phase == Phase::Solving || phase == Phase::Proposed
}

// Whether the end of a frozen trade breaks the cycle in this phase.
fn may_break(phase: Phase) -> bool
    ensures { result ≡ may_break phase }
{
    phase != Phase::None && phase != Phase::Broken
}

// Whether the trade is frozen, and the other party asked to end it before.
fn is_frozen_and_marked(row: Option<TradeRow>) -> bool
    ensures { result ≡ is_frozen_and_marked row }
{
    match row {
        None => false,
        Some(row) => row.frozen && row.mark.is_some(),
    }
}

/// What stays of a cycle that is no longer open. Before the first one both numbers are 0.
#[derive(Clone, Copy)]
pub struct LastCycle {
    /// How many cycles were opened so far.
    pub number: u64,
    /// How many versions were begun in the last one.
    pub version: u64,
}

/// The last cycle that was opened. Contracts see it as the machine's cycle.
#[derive(Drop)]
pub(super) struct Cycle {
    number: u64,
    version: u64,
    phase: Phase,
    day: Option<Day>,
    mode: Option<Mode>,
    /// What members had set when the version began. Contracts alone see it: a machine keeps it as the settings last taken.
    settings: Snapshot<Tolerances>,
    begun: Begun,
    solutions: Vec<Solution>,
    plan: Vec<PlanRow>,
    /// It has room for each member's vote from the beginning on.
    votes: Vec<MemberNo>,
    broken_by: Option<u64>,
}

impl Model for Cycle {
    ghost use Rattle.command_types.specs.declared.figures.Cycle.{Cycle as CycleFigures};

    ghost Value = { CycleFigures };

    ghost view = { λ c. record { number = c.number; version = c.version; phase = c.phase; day = c.day; mode = c.mode; settings = c.settings.value.settings; begun = c.begun; solutions = c.solutions.items; plan = c.plan.items; votes = c.votes.items; broken_by = c.broken_by } };

    ghost use Rattle.std.specs.Prelude.{◌≤◌, vec_capacity};
    ghost use Rattle.units_core.specs.declared.limits.TheConstants.{MOST_MEMBERS};

    ghost invariant = { λ c. MOST_MEMBERS ≤ vec_capacity c.votes };
}

impl Cycle {
    /// Before the first cycle. It takes the room for all votes now; the only error is want of memory.
    pub(super) fn none(alloc: Global) -> Result<Cycle, AllocError>
        ensures { IfOk result (λ cycle. cycle ≡ closed 0 0) }
    {
        let last = LastCycle {
            number: 0,
            version: 0,
        };
        Cycle::after(alloc, last)
    }

    /// After this cycle, with none open. It takes the room for all votes now; the only error is want of memory.
    pub(super) fn after(alloc: Global, last: LastCycle) -> Result<Cycle, AllocError>
        ensures { IfOk result (λ cycle. cycle ≡ closed last.number last.version) }
    {
        Ok(Cycle {
            number: last.number,
            version: last.version,
            phase: Phase::None,
            day: None,
            mode: None,
            settings: Snapshot::of(&Tolerances::new(alloc)),
            begun: Begun::none(alloc),
            solutions: Vec::new(alloc),
            plan: Vec::new(alloc),
            votes: Vec::with_capacity(alloc, MOST_MEMBERS as usize)?,
            broken_by: None,
        })
    }

    /// How many cycles were opened so far.
    pub(super) fn number(&self) -> u64
        ensures { result ≡ self.now.number }
    {
        self.number
    }

    /// How many versions were begun in the last one.
    pub(super) fn version(&self) -> u64
        ensures { result ≡ self.now.version }
    {
        self.version
    }

    pub(super) fn phase(&self) -> Phase
        ensures { result ≡ self.now.phase }
    {
        self.phase
    }

    /// The freeze's day.
    pub(super) fn day(&self) -> Option<Day>
        ensures { result ≡ self.now.day }
    {
        self.day
    }

    /// The mode in which the version began.
    pub(super) fn mode(&self) -> Option<Mode>
        ensures { result ≡ self.now.mode }
    {
        self.mode
    }

    /// What the version began with, where it was made: one problem for each product.
    pub(super) fn problems(&self) -> Option<&[Problem]>
        ensures { IfSome result (λ problems. problems.now ≡ self.now.begun) }
    {
        self.begun.made()
    }

    /// Keeps what the version began with, which was made now.
    pub(super) fn keep_problems(&mut self, problems: Vec<Problem>)
        requires { problems.items ≡ self.old.begun }
        ensures { self.new ≡ self.old }
    {
        self.begun.keep(problems);
    }

    /// The posted solution of each product.
    pub(super) fn solutions(&self) -> &[Solution]
        ensures { result.now ≡ self.now.solutions }
    {
        &self.solutions
    }

    /// What the proposal changes in the trades.
    pub(super) fn plan(&self) -> &[PlanRow]
        ensures { result.now ≡ self.now.plan }
    {
        &self.plan
    }

    /// The members that have accepted the proposal.
    pub(super) fn votes(&self) -> &[MemberNo]
        ensures { result.now ≡ self.now.votes }
    {
        &self.votes
    }

    /// The frozen trade whose end broke it.
    pub(super) fn broken_by(&self) -> Option<u64>
        ensures { result ≡ self.now.broken_by }
    {
        self.broken_by
    }

    /// The plan again, in memory of its own. The only error is want of memory.
    pub(super) fn plan_copy(&self) -> Result<Vec<PlanRow>, AllocError>
        ensures { IfOk result (λ plan. plan.items ≡ self.now.plan) }
    {
        self.plan.clone()
    }

    /// Where its memory comes from.
    pub(super) fn allocator(&self) -> Global {
        *self.plan.allocator()
    }

    // Drops the mode, the settings and the problems of the version.
    fn drop_version(&mut self)
        ensures { self.new ≡ record self.old { mode = None; settings = []; begun = [] } }
    {
        self.mode = None;
        let alloc = *self.plan.allocator();
        self.settings = Snapshot::of(&Tolerances::new(alloc));
        self.begun = Begun::none(alloc);
    }

    // Drops the solutions, their plan and the votes.
    fn drop_proposal(&mut self)
        ensures { self.new ≡ record self.old { solutions = []; plan = []; votes = [] } }
    {
        self.solutions.clear();
        self.plan.clear();
        self.votes.clear();
    }

    /// Opens the next cycle, with a freeze of this day. It takes no memory.
    pub(super) fn open(&mut self, day: Day)
        requires { self.old.number < 2 ^ 63 }
        ensures { self.new ≡ opened self.old day }
    {
        self.number = 1 + self.number;
        self.version = 0;
        self.phase = Phase::Frozen;
        self.day = Some(day);
        self.drop_version();
        self.broken_by = None;
        self.drop_proposal();
    }

    /// Begins the next version in this mode, with these settings and the problems of these trades, which are not made yet. It
    /// takes no memory.
    pub(super) fn begin(
        &mut self,
        roster: &Roster,
        book: &Book,
        tolerances: &Tolerances,
        mode: Mode,
    )
        requires { self.old.version < 2 ^ 63 }
        ensures { self.new ≡ begun_with self.old mode tolerances.now.settings (problems_of roster.now book.now.rows tolerances.now.settings mode) }
    {
        self.version = 1 + self.version;
        self.phase = Phase::Solving;
        self.mode = Some(mode);
        self.begun = Begun::of(roster, book, tolerances, mode);
        self.settings = Snapshot::of(tolerances);
        self.broken_by = None;
        self.drop_proposal();
    }

    /// Proposes what these solutions change in the trades. It takes no memory.
    pub(super) fn propose(&mut self, solutions: Vec<Solution>, plan: Vec<PlanRow>)
        ensures { self.new ≡ proposed_with self.old solutions.items plan.items }
    {
        self.drop_proposal();
        self.phase = Phase::Proposed;
        self.solutions = solutions;
        self.plan = plan;
    }

    /// Puts this member's vote behind the others. It takes no memory.
    pub(super) fn add_vote(&mut self, member: MemberNo)
        requires { length self.old.votes < MOST_MEMBERS }
        ensures { self.new ≡ record self.old { votes = self.old.votes ++ member ∷ [] } }
    {
        self.votes.push_reserved(member);
    }

    /// Drops the proposal and its version; the freeze stands. It takes no memory.
    pub(super) fn decline(&mut self)
        ensures { self.new ≡ declined self.old }
    {
        self.phase = Phase::Frozen;
        self.drop_version();
        self.broken_by = None;
        self.drop_proposal();
    }

    /// Ends the cycle: only its two numbers stay. It takes no memory.
    pub(super) fn close(&mut self)
        ensures { self.new ≡ closed self.old.number self.old.version }
    {
        self.phase = Phase::None;
        self.day = None;
        self.drop_version();
        self.broken_by = None;
        self.drop_proposal();
    }

    /// Breaks the cycle where a party's END of this trade, as it is now, ends a frozen one. It takes no memory.
    pub(super) fn after_end(&mut self, trade: u64, row: Option<TradeRow>)
        ensures { self.new ≡ cycle_after_end self.old trade row }
    {
        if may_break(self.phase) && is_frozen_and_marked(row) {
            self.phase = Phase::Broken;
            self.broken_by = Some(trade);
        }
    }
}
