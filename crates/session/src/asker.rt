//! What a session asks with.

ghost use Rattle.std.specs.Prelude.{◌≡◌, ◌≤◌, ◌<◌, ℕ, Bool, All, length, drop, vec_len, vec_capacity, IfOk};
ghost use Rattle.command_types.specs.declared.desk.TheConstants.{MOST_TOGETHER};
ghost use Rattle.command_types.specs.History.{end_of};
ghost use Rattle.command_types.specs.Session.{IsTime};
ghost use Rattle.network_laws.specs.Solved.{AreSolved};
ghost use Rattle.cycle_lock.specs.Passes.{IsPassOf, seat_of, seen};
ghost use Rattle.session.specs.Runs.{AsksFront};
ghost use Rattle.session.specs.Serving.{of_pass, Asks};

use command_types::{Ask, Desk, Entry, Reply};
use cycle_lock::{Pass, Turns};
use network_laws::{Problem, Solution, Solver};
use outside::Gate;
use parallel_solver::Workers;
use std::alloc::{AllocError, Global};
use std::sync::Wait;
use std::thread::Threads;

/// A pass of a lock, which asks the desk in its turn, and the workers that solve, with no turn held.
#[derive(Drop)]
pub struct Asker<'a, T: Desk, R: Threads + Wait + Sync, V: Solver, G: Gate> {
    workers: &'a Workers<'a, R, V, G>,
    turns: &'a Turns<T>,
    pass: Pass,
    ghost own: { IsPassOf turns.now pass },
}

impl<'a, T: Desk, R: Threads + Wait + Sync, V: Solver, G: Gate> Asker<'a, T, R, V, G> {
    /// What asks with this pass.
    pub fn new(
        workers: &'a Workers<'a, R, V, G>,
        turns: &'a Turns<T>,
        pass: Pass,
    ) -> Asker<'a, T, R, V, G>
        requires { IsPassOf turns.now pass }
        ensures pass { result.pass ≡ pass }
        ensures turns { result.turns.now ≡ turns.entry.now }
    {
        Asker {
            workers,
            turns,
            pass,
        }
    }

    /// The pass as it is.
    pub fn pass(&self) -> &Pass
        ensures { result.now ≡ self.now.pass }
    {
        &self.pass
    }

    /// The pass again.
    pub fn into_pass(self) -> Pass
        ensures pass { result ≡ self.entry.pass }
        ensures own { IsPassOf self.entry.turns.now result }
    {
        self.pass
    }

    /// Asks the desk. What others ask meanwhile is seen too.
    pub fn ask(&mut self, ask: Ask) -> Reply
        ensures { (clock : ℕ → Bool) → IsTime clock ask.moment → Asks clock (of_pass self.old.pass) (of_pass self.new.pass) ask result }
    {
        self.turns.call(self.workers.rt, &mut self.pass, ask)
    }

    /// Asks the desk these commands in one turn. A front of them is answered, at least the first, and what is answered may be
    /// taken out of them. The replies take the place of those before.
    pub fn ask_all(&mut self, commands: &mut [Entry], replies: &mut Vec<Reply>)
        requires seats { All (λ command. command.seat ≡ seat_of self.old.pass) commands.old }
        requires some { 0 < length commands.old }
        requires few { length commands.old ≤ MOST_TOGETHER }
        requires room { length commands.old ≤ vec_capacity replies.old }
        ensures some { 0 < vec_len replies.new }
        ensures few { vec_len replies.new ≤ length commands.old }
        ensures rest { drop (vec_len replies.new) commands.new ≡ drop (vec_len replies.new) commands.old }
        ensures capacity { vec_capacity replies.new ≡ vec_capacity replies.old }
        ensures asks { AsksFront (of_pass self.old.pass) (of_pass self.new.pass) commands.old (vec_len replies.new) replies.new.items }
    {
        self.turns
            .call_all(self.workers.rt, &mut self.pass, commands, replies)
    }

    /// The length of the history that the pass has seen.
    pub fn length(&self) -> u64
        ensures { result ≡ end_of (seen self.now.pass) }
    {
        self.pass.position()
    }

    /// A certified solution for each problem, in order. The only error is want of memory.
    pub fn solve_all(
        &self,
        alloc: Global,
        problems: &[Problem],
    ) -> Result<Vec<Solution>, AllocError>
        ensures { IfOk result (λ solutions. AreSolved problems.now solutions.items) }
    {
        self.workers.solve_all(alloc, problems)
    }
}
