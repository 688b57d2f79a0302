//! What a pass notes of a turn in which others are called too.
ghost use Rattle.std.specs.Prelude.{◌≡◌, ◌≤◌, Bool, List, false, length};
ghost use Rattle.command_types.specs.declared.ask.Entry.{Entry};
ghost use Rattle.command_types.specs.History.{end_of};
ghost use Rattle.cycle_lock.specs.Accounts.{whole};
ghost use Rattle.cycle_lock.specs.declared.rule.Stage.TheVariants.{HasTurn};
ghost use Rattle.cycle_lock.specs.Plays.{Adds, kept, noted_beside};
ghost use Rattle.cycle_lock.specs.Views.{account_of};

use super::Turns;
use super::steps::SeatOf;
use crate::pass::Pass;
use crate::plays::{Keep, LetOut, Next, NoteGuest, TakeIn};
use command_types::Desk;

impl<T: Desk> Turns<T> {
    // The seat's own pass notes its reply, by which the history has so many entries more.
    pub(super) fn keep<M: Next>(&self, seat: &mut SeatOf<T>, more: u64)
        requires own { seat.old.table_id ≡ self.now.table.shared.table_id }
        requires turn { seat.old.me.0.stage ≡ HasTurn }
        requires next { (log : List Entry) × (stop : Bool) × (added : List Entry) × (more ≡ length added) × M.next log stop × Adds seat.old.me.0 seat.old.me.0.account added log stop }
        ensures own { (seat.new.table_id ≡ seat.old.table_id) × (seat.new.id ≡ seat.old.id) }
        ensures kept { kept M.next seat.old.me seat.new.me }
    {
        self.table.shared.fetch_add::<Keep<M>>(seat, 0, more);
    }

    // A pass comes in, notes its reply, which stands at this position, and goes out again.
    pub(super) fn note_guest<M: Next>(
        &self,
        seat: &mut SeatOf<T>,
        pass: Pass,
        more: u64,
        at: u64,
    ) -> Pass
        requires own { (seat.old.table_id ≡ self.now.table.shared.table_id) × (pass.badge.table_id ≡ self.now.table.shared.table_id) }
        requires turn { (seat.old.me.0.stage ≡ HasTurn) × (seat.old.me.0.account.spent ≡ false) }
        requires next { (log : List Entry) × (stop : Bool) × (added : List Entry) × (more ≡ length added) × M.next log stop × Adds seat.old.me.0 (account_of pass.badge.views) added log stop }
        requires place { (log : List Entry) (stop : Bool) → M.next log stop → at ≡ end_of (whole seat.old.me.0.account.figures log) }
        ensures own { (seat.new.table_id ≡ seat.old.table_id) × (seat.new.id ≡ seat.old.id) × (result.badge.table_id ≡ pass.badge.table_id) }
        ensures number { result.number ≡ pass.number }
        ensures noted { noted_beside M.next seat.old.me seat.new.me (account_of pass.badge.views) (account_of result.badge.views) }
    {
        let Pass {
            badge,
            number,
            at: _,
        } = pass;
        self.table
            .shared
            .join_seat::<TakeIn>(seat, badge.into_seat());
        self.table.shared.fetch_add::<NoteGuest<M>>(seat, 0, more);
        let guest = self.table.shared.split_seat::<LetOut>(seat);
        Pass {
            badge: guest.into_badge(),
            number,
            at,
        }
    }
}
