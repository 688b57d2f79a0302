//! The parts of a proposal, as far as its text was read.
ghost use Rattle.std.specs.Prelude.{◌≡◌, ◌+◌, ◌<◌, ◌≤◌, ◌^◌, length, Some, All};
ghost use Rattle.network_laws.specs.Solutions.{IsSolution};
ghost use Rattle.std.specs.Option.{option_copied};
ghost use Rattle.network_laws.specs.Networks.{place, total as total_of};
ghost use Rattle.command_types.specs.Roster.{Rows, member_place};
ghost use Rattle.dual_certificate.specs.Proposal.{nothing_read, is_between, is_behind, fits, with_product, with_network_row, with_row, with_pot, with_bound, with_end, with_said, with_line};
ghost use Rattle.dual_certificate.specs.Proposal.{after_parts};
ghost use Rattle.dual_certificate.specs.ProposalDraft.{reading_of, IsDraft, ReadSteps};
ghost use Rattle.units_core.specs.declared.limits.TheConstants.{MOST_GROSS};

use crate::proposal_line::{Figures, Potential, ProposalLine, read_line};
use crate::proposal_part::ProposalPart;
use command_types::{FileFault, Roster};
use network_laws::{Network, Row, Solution};
use std::alloc::Global;
use std::mem;
use units_core::{Amount, MOST_GROSS, Name};

/// The parts so far, and the part that is begun.
#[derive(Drop)]
pub(crate) struct ProposalDraft {
    alloc: Global,
    parts: Vec<ProposalPart>,
    figures: Option<Figures>,
    rows: Vec<Row>,
    total: u64,
    potentials: Vec<i32>,
    has_ended: bool,
}

fn place_of(row: Row) -> u32
    ensures { result ≡ place row }
{
    row.seller as u32 * 65536 + row.buyer as u32
}

// Whether the row stands behind the last one.
fn stands_behind(last: Option<&Row>, row: Row) -> bool
    ensures { result ≡ is_behind (option_copied last.entry) row }
{
    match last {
        None => true,
        Some(last) => place_of(*last) < place_of(row),
    }
}

// Whether the rows, whose amounts have this total, may have this row behind them.
fn may_follow(rows: &[Row], total: u64, row: Row) -> bool
    requires total { total ≡ total_of rows.now }
    requires amounts { total + row.amount < 2 ^ 64 }
    ensures { result ≡ fits rows.now row }
{
    row.seller != row.buyer && stands_behind(rows.last(), row) && total + row.amount <= MOST_GROSS
}

impl ProposalDraft {
    pub(crate) fn new(alloc: Global) -> ProposalDraft
        ensures reading { reading_of result ≡ nothing_read }
        ensures draft { (roster : Rows) → IsDraft roster result }
    {
        ProposalDraft {
            alloc,
            parts: Vec::new(alloc),
            figures: None,
            rows: Vec::new(alloc),
            total: 0,
            potentials: Vec::new(alloc),
            has_ended: false,
        }
    }

    /// A part is begun, with nothing in front of it.
    pub(crate) fn begun(alloc: Global, figures: Figures) -> ProposalDraft
        ensures reading { reading_of result ≡ record nothing_read { figures = Some figures } }
        ensures draft { (roster : Rows) → IsDraft roster result }
    {
        let mut draft = ProposalDraft::new(alloc);
        draft.figures = Some(figures);
        draft
    }

    /// These parts are finished, and none is begun.
    pub(crate) fn behind(alloc: Global, parts: Vec<ProposalPart>) -> ProposalDraft
        requires { All (λ part. IsSolution part.solution) parts.items }
        ensures reading { reading_of result ≡ after_parts parts.items }
        ensures draft { (roster : Rows) → IsDraft roster result }
    {
        let mut draft = ProposalDraft::new(alloc);
        draft.parts = parts;
        draft
    }

    // Whether a part may begin, or the last line come.
    fn is_between(&self) -> bool
        ensures { result ≡ is_between (reading_of self.now) }
    {
        !self.has_ended && self.figures.is_none()
    }

    // A part begins.
    fn begin(
        &mut self,
        roster: &Roster,
        row: u64,
        name: Name,
        figures: Figures,
    ) -> Result<(), FileFault>
        requires { IsDraft roster.now self.old }
        ensures { ReadSteps roster.now row (with_product roster.now (reading_of self.old) name figures) self.new result }
    {
        let products = roster.products();
        if self.parts.len() < products.len()
            && self.is_between()
            && products[self.parts.len()].name.is(&name)
        {
            self.figures = Some(figures);
            return Ok(());
        }
        Err(FileFault::BadLine { row })
    }

    // One row more of the part that is begun.
    fn add_row(&mut self, roster: &Roster, row: u64, added: Row) -> Result<(), FileFault>
        requires draft { IsDraft roster.now self.old }
        requires seller { added.seller < length roster.now.members }
        requires buyer { added.buyer < length roster.now.members }
        requires least { 1 ≤ added.amount }
        requires most { added.amount ≤ MOST_GROSS }
        ensures { ReadSteps roster.now row (with_network_row (reading_of self.old) added) self.new result }
    {
        if self.figures.is_none()
            || !self.potentials.is_empty()
            || !may_follow(&self.rows, self.total, added)
        {
            return Err(FileFault::BadLine { row });
        }
        if self.rows.push(added).is_err() {
            return Err(FileFault::Memory);
        }
        self.total += added.amount;
        Ok(())
    }

    // The potential of the next member.
    fn add_potential(
        &mut self,
        roster: &Roster,
        row: u64,
        name: Name,
        value: Potential,
    ) -> Result<(), FileFault>
        requires { IsDraft roster.now self.old }
        ensures { ReadSteps roster.now row (with_pot roster.now (reading_of self.old) name value) self.new result }
    {
        let members = roster.members();
        let place = self.potentials.len();
        if self.figures.is_none() || place >= members.len() || !members[place].name.is(&name) {
            return Err(FileFault::BadLine { row });
        }
        if self.potentials.push(value.get()).is_err() {
            return Err(FileFault::Memory);
        }
        Ok(())
    }

    /// The part that is begun ends with its dual bound.
    pub(crate) fn finish(&mut self, roster: &Roster, row: u64, value: u64) -> Result<(), FileFault>
        requires { IsDraft roster.now self.old }
        ensures { ReadSteps roster.now row (with_bound roster.now (reading_of self.old) value) self.new result }
    {
        let members = roster.members().len();
        let Some(figures) = self.figures else {
            return Err(FileFault::BadLine { row });
        };
        if self.potentials.len() != members {
            return Err(FileFault::BadLine { row });
        }
        let rows = mem::replace(&mut self.rows, Vec::new(self.alloc));
        let potentials = mem::replace(&mut self.potentials, Vec::new(self.alloc));
        let Ok(network) = Network::from_rows(members as u16, rows) else {
            unreachable!()
        };
        let part = ProposalPart {
            solution: Solution::new(network, potentials),
            gross: figures.gross,
            least: figures.least,
            floor_m: figures.floor_m,
            bilateral: figures.bilateral,
            bound: value,
        };
        self.figures = None;
        self.total = 0;
        if self.parts.push(part).is_err() {
            return Err(FileFault::Memory);
        }
        Ok(())
    }

    // The last line.
    fn end(&mut self, roster: &Roster, row: u64, count: u64) -> Result<(), FileFault>
        requires { IsDraft roster.now self.old }
        ensures { ReadSteps roster.now row (with_end roster.now (reading_of self.old) count) self.new result }
    {
        let products = roster.products().len();
        if !self.is_between() || self.parts.len() != products || count != products as u64 {
            return Err(FileFault::BadLine { row });
        }
        self.has_ended = true;
        Ok(())
    }

    fn add_named_row(
        &mut self,
        roster: &Roster,
        row: u64,
        seller: Name,
        buyer: Name,
        amount: Amount,
    ) -> Result<(), FileFault>
        requires { IsDraft roster.now self.old }
        ensures { ReadSteps roster.now row (with_row (reading_of self.old) (member_place roster.now seller) (member_place roster.now buyer) amount) self.new result }
    {
        let Some(seller) = roster.member_named(&seller) else {
            return Err(FileFault::BadLine { row });
        };
        let Some(buyer) = roster.member_named(&buyer) else {
            return Err(FileFault::BadLine { row });
        };
        let added = Row {
            seller: seller.0,
            buyer: buyer.0,
            amount: amount.get(),
        };
        self.add_row(roster, row, added)
    }

    /// Takes what a line with this number says.
    pub(crate) fn take(
        &mut self,
        roster: &Roster,
        row: u64,
        line: ProposalLine,
    ) -> Result<(), FileFault>
        requires { IsDraft roster.now self.old }
        ensures { ReadSteps roster.now row (with_said roster.now (reading_of self.old) (Some line)) self.new result }
    {
        match line {
            ProposalLine::Product { name, figures } => self.begin(roster, row, name, figures),
            ProposalLine::Row {
                seller,
                buyer,
                amount,
            } => self.add_named_row(roster, row, seller, buyer, amount),
            ProposalLine::Pot { member, value } => self.add_potential(roster, row, member, value),
            ProposalLine::Bound { value } => self.finish(roster, row, value),
            ProposalLine::End { count } => self.end(roster, row, count),
        }
    }

    /// Takes the line with this number, without its line feed.
    pub(crate) fn take_line(
        &mut self,
        roster: &Roster,
        row: u64,
        line: &[u8],
    ) -> Result<(), FileFault>
        requires { IsDraft roster.now self.old }
        ensures { ReadSteps roster.now row (with_line roster.now (reading_of self.old) line.now) self.new result }
    {
        match read_line(line) {
            None => Err(FileFault::BadLine { row }),
            Some(line) => self.take(roster, row, line),
        }
    }

    /// Whether the last line came.
    pub(crate) fn has_ended(&self) -> bool
        ensures { result ≡ (reading_of self.now).has_ended }
    {
        self.has_ended
    }

    /// The parts.
    pub(crate) fn into_parts(self) -> Vec<ProposalPart>
        ensures { result.items ≡ (reading_of self).parts }
    {
        self.parts
    }
}
