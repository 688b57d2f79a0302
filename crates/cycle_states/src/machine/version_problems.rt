//! The problems of the version that stands, for the commands that ask for them.

ghost use Rattle.std.specs.Prelude.{◌≡◌, false, IfOk, IsOk, IsTrue};
ghost use Rattle.std.specs.Cow.{cow_slice_items};
ghost use Rattle.command_types.specs.Cycles.{has_limits, is_solving};
ghost use Rattle.command_types.specs.Told.{is_accept};
ghost use Rattle.cycle_states.specs.Begun.{AreCheckedBy};

use super::Machine;
use super::cycle::{has_limits, is_solving};
use super::frozen::Frozen;
use super::problems::{Version, problems_now};
use command_types::What;
use network_laws::Problem;
use std::alloc::AllocError;
use std::borrow::CowSlice;

// Whether what is told or made of the command follows from the version's problems.
fn asks_problems(what: &What) -> bool
    ensures { IsTrue (is_accept what.now) → result ≡ false }
{
    matches!(
        what,
        What::Fetch { .. } | What::Limits { .. } | What::Post { .. } | What::Proof { .. }
    )
}

impl Machine {
    // The version's problems, made from the frozen trades, the settings that its BEGIN took, and its mode.
    fn made_problems(&self) -> Result<Vec<Problem>, AllocError>
        requires { IsTrue (has_limits self.now.state.cycle.phase) }
        ensures { IfOk result (λ problems. problems.items ≡ self.now.state.cycle.begun) }
    {
        let Some(mode) = self.cycle.mode() else {
            unreachable!()
        };
        let version = Version {
            roster: &self.roster,
            book: &self.book,
            frozen: &self.frozen,
            tolerances: &self.tolerances,
            mode,
        };
        problems_now(self.cycle.allocator(), &version)
    }

    /// The version's problems: those that the cycle keeps, or made for once. The only error is want of memory.
    pub(super) fn problems(&self) -> Result<CowSlice<'_, Problem>, AllocError>
        requires { IsTrue (has_limits self.now.state.cycle.phase) }
        ensures { IfOk result (λ problems. cow_slice_items problems ≡ self.now.state.cycle.begun) }
    {
        match self.cycle.problems() {
            Some(problems) => Ok(CowSlice::Borrowed(problems)),
            None => Ok(CowSlice::Owned(self.made_problems()?)),
        }
    }

    // The problems of a version that waits for its posting; where none does, no problems.
    fn awaited_problems(&self) -> Result<CowSlice<'_, Problem>, AllocError>
        ensures { IfOk result (λ problems. IsTrue (is_solving self.now.state.cycle.phase) → cow_slice_items problems ≡ self.now.state.cycle.begun) }
    {
        if !is_solving(self.cycle.phase()) {
            return Ok(CowSlice::Owned(Vec::new(self.cycle.allocator())));
        }
        self.problems()
    }

    /// The problems that the certificates of a POST are for, while they stand. The only error is want of memory, and it never
    /// comes for an ACCEPT.
    pub(super) fn problems_to_check(&self, what: &What) -> Result<CowSlice<'_, Problem>, AllocError>
        ensures problems { IfOk result (λ problems. AreCheckedBy self.now.state what.now (cow_slice_items problems)) }
        ensures vote { IsTrue (is_accept what.now) → IsOk result }
    {
        match what {
            What::Post { .. } => self.awaited_problems(),
            _ => Ok(CowSlice::Owned(Vec::new(self.cycle.allocator()))),
        }
    }

    // Keeps the networks of the freeze, where none are kept.
    fn keep_frozen(&mut self) -> Result<(), AllocError>
        requires { IsTrue (has_limits self.old.state.cycle.phase) }
        ensures { self.new ≡ self.old }
    {
        if !self.frozen.is_empty() {
            return Ok(());
        }
        let products = self.roster.products().len() as u16;
        self.frozen = Frozen::of(self.cycle.allocator(), &self.book, products)?;
        Ok(())
    }

    // Has the cycle keep the version's problems, which are made now.
    fn keep_made(&mut self) -> Result<(), AllocError>
        requires { IsTrue (has_limits self.old.state.cycle.phase) }
        ensures { self.new ≡ self.old }
    {
        let problems = self.made_problems()?;
        self.cycle.keep_problems(problems);
        Ok(())
    }

    // Has the cycle keep the version's problems, if they stand, and the machine the networks that they are made of.
    fn keep_standing(&mut self) -> Result<(), AllocError>
        ensures { self.new ≡ self.old }
    {
        if !has_limits(self.cycle.phase()) || self.cycle.problems().is_some() {
            return Ok(());
        }
        self.keep_frozen()?;
        self.keep_made()
    }

    /// Has the cycle keep the version's problems, if they stand and the command asks for them, and the machine the networks that
    /// they are made of. The only error is want of memory, and it never comes for an ACCEPT.
    pub(super) fn keep_problems(&mut self, what: &What) -> Result<(), AllocError>
        ensures same { self.new ≡ self.old }
        ensures vote { IsTrue (is_accept what.now) → IsOk result }
    {
        if !asks_problems(what) {
            return Ok(());
        }
        self.keep_standing()
    }
}
