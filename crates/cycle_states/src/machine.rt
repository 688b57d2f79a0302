//! The machine that answers one command at a time: its answer now, and the changes that it makes.

mod ballot;
mod base;
mod begun;
mod commands;
mod conditions;
mod cycle;
mod decision;
mod effect;
mod freezing;
mod frozen;
mod held_pair;
mod limit_lines;
mod member_proofs;
mod near_members;
mod of_base;
mod pair_places;
mod part;
mod parties;
mod party;
mod problem_copies;
mod problems;
mod proof_rows;
mod ready;
mod room;
mod row_search;
mod sides;
mod solutions;
mod terms;
mod undo;
mod version_problems;
mod whose;

ghost use Rattle.std.specs.Prelude.{ℕ, ◌≡◌, ◌≤◌, ◌<◌, ◌^◌, length, None, All, IsTrue, IfOk, IsOk, OnOk, is_some};
ghost use Rattle.network_laws.specs.Solutions.{IsSolution};
ghost use Rattle.command_types.specs.Bases.{AreRising};
ghost use Rattle.command_types.specs.Trades.{gross_of};
ghost use Rattle.command_types.specs.Cycles.{closed};
ghost use Rattle.command_types.specs.Machine.{answer_to, first_of, refusals, state_after};
ghost use Rattle.command_types.specs.History.{is_recorded, solutions_posted};
ghost use Rattle.command_types.specs.Spelling.{posted, most_solutions};
ghost use Rattle.command_types.specs.Told.{is_accept};
ghost use Rattle.trade_history.specs.Laws.{is_execution};
ghost use Rattle.posting.specs.Laws.{AreLeast, KeepsNets};
ghost use Rattle.product_book.specs.Book.{gross_limit, AreTrades};
ghost use Rattle.cycle_states.specs.Decision.{IsDecision};
ghost use Rattle.cycle_states.specs.Ballot.{planned_rows};
ghost use Rattle.cycle_states.specs.Effects.{rows_added, settings_added};
ghost use Rattle.cycle_states.specs.Machine.{state_with, IsYoung};
ghost use Rattle.cycle_states.specs.Party.{IsCallerOf};
ghost use Rattle.cycle_states.specs.Ready.{IsReady};

use ballot::Ballot;
use command_types::{Answer, Ask, Entry, Roster, ToleranceRow, TradeRow};
pub(crate) use commands::is_change;
pub use cycle::LastCycle;
use cycle::{Cycle, is_proposed};
pub use decision::Decision;
use effect::apply;
use frozen::Frozen;
use party::Caller;
use product_book::Book;
pub use ready::Ready;
use room::make_room;
use std::alloc::{AllocError, Global};
use std::marker::Model;
use tolerance_sets::Tolerances;
pub use undo::Undo;

/// The machine: a roster, the trades and tolerances so far, the cycle, the ballot on its proposal, and what is kept of its freeze.
#[derive(Drop)]
pub struct Machine {
    roster: Roster,
    book: Book,
    tolerances: Tolerances,
    cycle: Cycle,
    ballot: Ballot,
    frozen: Frozen,
}

impl Model for Machine {
    ghost use Rattle.cycle_states.specs.Machine.{MachineView, state_with, IsWhole};

    ghost Value = { MachineView };

    ghost view = { λ m. record { state = state_with m.roster m.book.rows m.tolerances.settings m.cycle; spare = m.book.spare; slots = m.tolerances.spare } };

    ghost invariant = { λ m. IsWhole m.roster m.book m.tolerances m.cycle m.ballot m.frozen };
}

impl Machine {
    ghost use Rattle.command_types.specs.Machine.{empty_state};

    /// The machine before the first command. The only error is want of memory.
    pub fn new(alloc: Global, roster: Roster) -> Result<Machine, AllocError>
        ensures { IfOk result (λ machine. machine.state ≡ empty_state roster) }
    {
        let members = roster.members().len() as u16;
        let products = roster.products().len() as u16;
        let book = Book::new(alloc, members, products)?;
        let cycle = Cycle::none(alloc)?;
        Ok(Machine {
            roster,
            book,
            tolerances: Tolerances::new(alloc),
            cycle,
            ballot: Ballot::none(),
            frozen: Frozen::none(alloc),
        })
    }

    /// The machine that stands between two cycles: after this one, with exactly these settings and trades. The settings stand in
    /// rising order of their places. The trades are numbered from 1, their parties and products are places in range, and no
    /// product's alleged and live amounts come to more than 10^18: their list becomes the book's. The only error is want of
    /// memory.
    pub fn at_rest(
        alloc: Global,
        roster: Roster,
        last: LastCycle,
        tolerances: &[ToleranceRow],
        trades: Vec<TradeRow>,
    ) -> Result<Machine, AllocError>
        requires rising { AreRising 0 tolerances.now }
        requires few { length trades.items < 2 ^ 32 }
        requires trades { AreTrades (length roster.members) (length roster.products) 1 trades.items }
        requires bounded { (product : ℕ) → gross_of product trades.items ≤ gross_limit }
        ensures { IfOk result (λ machine. machine.state ≡ state_with roster trades.items tolerances.now (closed last.number last.version)) }
    {
        let members = roster.members().len() as u16;
        let products = roster.products().len() as u16;
        let book = Book::of_own_rows(alloc, members, products, trades)?;
        Ok(Machine {
            roster,
            book,
            tolerances: Tolerances::of_rows(alloc, tolerances)?,
            cycle: Cycle::after(alloc, last)?,
            ballot: Ballot::none(),
            frozen: Frozen::none(alloc),
        })
    }

    /// Who takes part.
    pub fn roster(&self) -> &Roster
        ensures { result.now ≡ self.now.state.roster }
    {
        &self.roster
    }

    /// What a command is answered now. What is accepted and changes the machine has a party, and posts few solutions. The
    /// only error is want of memory, and it never comes for an ACCEPT, which takes none.
    pub fn answer(&self, ask: &Ask) -> Result<Answer, AllocError>
        requires { IsYoung self.now.state.cycle }
        ensures answer { IfOk result (λ answer. answer ≡ answer_to self.now.state ask.now) }
        ensures party { IfOk result (λ answer. IsTrue (is_recorded ask.now.what answer) → IsTrue (is_some ask.now.by)) }
        ensures few { IfOk result (λ answer. IsTrue (is_recorded ask.now.what answer) → posted ask.now.what ≤ most_solutions) }
        ensures vote { IsTrue (is_accept ask.now.what) → IsOk result }
    {
        // What the cycle keeps tells that few solutions are posted.
        let _cycle = &self.cycle;
        let caller = self.caller_of(&ask.by);
        match self.refusal(ask, &caller)? {
            Some(refusal) => Ok(Answer::No(refusal)),
            None => self.accepted(ask, &caller),
        }
    }

    // How many trades the proposed plan makes; where none is proposed, 0.
    fn planned(&self) -> u64
        ensures { result ≡ planned_rows self.now.state.cycle }
    {
        if is_proposed(self.cycle.phase()) {
            self.ballot.made
        } else {
            0
        }
    }

    // Makes an accepted change ready: the room that it needs, and all that it is made with.
    fn made_ready(&mut self, entry: Entry, caller: &Option<Caller>) -> Result<Ready, AllocError>
        requires caller { IsCallerOf self.old.state.roster entry.ask.by caller.now }
        requires accepted { IsTrue (is_recorded entry.ask.what (answer_to self.old.state entry.ask)) }
        requires young { IsYoung self.old.state.cycle }
        ensures state { self.new.state ≡ self.old.state }
        ensures keeps { self.old.spare ≤ self.new.spare }
        ensures keeps_slots { self.old.slots ≤ self.new.slots }
        ensures entry { IfOk result (λ ready. ready.entry ≡ entry) }
        ensures ready { IfOk result (λ ready. IsReady self.old.state ready) }
        ensures room { OnOk result (rows_added self.old.state entry.ask ≤ self.new.spare) }
        ensures slot { OnOk result (settings_added self.old.state entry.ask ≤ self.new.slots) }
        ensures few { OnOk result (posted entry.ask.what ≤ most_solutions) }
        ensures vote { IsTrue (is_accept entry.ask.what) → IsOk result }
    {
        let Some(caller) = caller else { unreachable!() };
        let made = self.made_for(caller, &entry.ask.what)?;
        let planned = self.planned();
        make_room(&mut self.book, &mut self.tolerances, &made.effect, planned)?;
        Ok(Ready::new(entry, made))
    }

    // Decides a command that is not refused.
    fn decide_accepted(
        &mut self,
        entry: Entry,
        caller: &Option<Caller>,
    ) -> Result<Decision, AllocError>
        requires caller { IsCallerOf self.old.state.roster entry.ask.by caller.now }
        requires accepted { first_of (refusals self.old.state entry.ask.by entry.ask.what) ≡ None }
        requires young { IsYoung self.old.state.cycle }
        ensures state { self.new.state ≡ self.old.state }
        ensures keeps { self.old.spare ≤ self.new.spare }
        ensures keeps_slots { self.old.slots ≤ self.new.slots }
        ensures decides { IfOk result (λ decision. IsDecision self.new entry decision) }
        ensures vote { IsTrue (is_accept entry.ask.what) → IsOk result }
    {
        if !is_change(&entry.ask.what) {
            let answer = self.accepted(&entry.ask, caller)?;
            return Ok(Decision::Told(answer));
        }
        let ready = self.made_ready(entry, caller)?;
        Ok(Decision::Ready(ready))
    }

    /// Decides a command once: what is refused, and a read, is told its answer; a change is made ready, with all the room that
    /// it needs. What first asks for a version's problems makes them, and they are kept. The state stays, whatever the result; the
    /// only error is want of memory, and it never comes for an ACCEPT: its POST made the room, and each change since kept it.
    pub fn decide(&mut self, entry: Entry) -> Result<Decision, AllocError>
        requires { IsYoung self.old.state.cycle }
        ensures state { self.new.state ≡ self.old.state }
        ensures keeps { self.old.spare ≤ self.new.spare }
        ensures keeps_slots { self.old.slots ≤ self.new.slots }
        ensures decides { IfOk result (λ decision. IsDecision self.new entry decision) }
        ensures vote { IsTrue (is_accept entry.ask.what) → IsOk result }
    {
        self.keep_problems(&entry.ask.what)?;
        let caller = self.caller_of(&entry.ask.by);
        match self.refusal(&entry.ask, &caller)? {
            Some(refusal) => Ok(Decision::Told(Answer::No(refusal))),
            None => self.decide_accepted(entry, &caller),
        }
    }

    /// Makes the room that an accepted change needs, and all that it is made with. The state stays, whatever the result; the only
    /// error is want of memory, and it never comes for an ACCEPT.
    pub fn prepare(&mut self, entry: Entry) -> Result<Ready, AllocError>
        requires accepted { IsTrue (is_recorded entry.ask.what (answer_to self.old.state entry.ask)) }
        requires young { IsYoung self.old.state.cycle }
        ensures state { self.new.state ≡ self.old.state }
        ensures keeps { self.old.spare ≤ self.new.spare }
        ensures keeps_slots { self.old.slots ≤ self.new.slots }
        ensures entry { IfOk result (λ ready. ready.entry ≡ entry) }
        ensures ready { IfOk result (λ ready. IsReady self.old.state ready) }
        ensures room { OnOk result (rows_added self.old.state entry.ask ≤ self.new.spare) }
        ensures slot { OnOk result (settings_added self.old.state entry.ask ≤ self.new.slots) }
        ensures vote { IsTrue (is_accept entry.ask.what) → IsOk result }
    {
        let decision = self.decide(entry)?;
        match decision {
            Decision::Ready(ready) => Ok(ready),
            Decision::Told(_) => unreachable!(),
        }
    }

    /// Makes the change that was prepared in this state, and answers it. It takes no memory and can't fail. The solutions
    /// of a POST are well-formed, as their type keeps them, and of the least gross that their problems allow. Where the
    /// change executes a plan, every member's position in every product stays, and no product's gross grows.
    pub fn commit(&mut self, ready: Ready) -> (Entry, Answer)
        requires accepted { IsTrue (is_recorded ready.entry.ask.what (answer_to self.old.state ready.entry.ask)) }
        requires young { IsYoung self.old.state.cycle }
        requires ready { IsReady self.old.state ready }
        requires room { rows_added self.old.state ready.entry.ask ≤ self.old.spare }
        requires slot { settings_added self.old.state ready.entry.ask ≤ self.old.slots }
        ensures state { self.new.state ≡ state_after self.old.state ready.entry.ask }
        ensures entry { result.0 ≡ ready.entry }
        ensures answer { result.1 ≡ answer_to self.old.state ready.entry.ask }
        ensures solutions { All IsSolution (solutions_posted ready.entry.ask.what) }
        ensures least { AreLeast self.old.state.cycle.begun (solutions_posted ready.entry.ask.what) }
        ensures nets { IsTrue (is_execution result.1) → KeepsNets self.old.state.roster self.old.state self.new.state }
    {
        // What a book says of its trades is what the nets rest on.
        let _rows = self.book.rows();
        let (entry, answer, effect, ballot) = ready.into_parts();
        self.frozen.pass(&effect);
        apply(
            &self.roster,
            &mut self.book,
            &mut self.tolerances,
            &mut self.cycle,
            effect,
        );
        self.ballot = ballot;
        (entry, answer)
    }
}
