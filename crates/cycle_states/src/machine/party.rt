//! Who asks a command. The roster is asked for the name once, and what it said is handed on.

ghost use Rattle.std.specs.Prelude.{◌≡◌, Some};
ghost use Rattle.command_types.specs.Machine.{member_of};
ghost use Rattle.command_types.specs.Roster.{is_member_at, is_operator, member_place};
ghost use Rattle.cycle_states.specs.Party.{IsCaller, IsCallerOf};

use super::Machine;
use command_types::Roster;
use units_core::{MemberNo, Name};

/// Who of the roster asks.
#[derive(Clone, Copy)]
pub(super) enum Party {
    Operator,
    Member(MemberNo),
}

/// Who asks, and by which name.
#[derive(Clone, Copy)]
pub(super) struct Caller {
    pub name: Name,
    pub party: Party,
}

impl Caller {
    /// The caller of this name, if the roster has it.
    fn named(roster: &Roster, name: &Name) -> Option<Caller>
        ensures { IsCallerOf roster.now (Some name.now) result }
    {
        // What the roster keeps of its names is what a caller rests on.
        let _rows = roster.members();
        match roster.member_named(name) {
            Some(member) => Some(Caller {
                name: *name,
                party: Party::Member(member),
            }),
            None => {
                if !roster.is_operator(name) {
                    return None;
                }
                Some(Caller {
                    name: *name,
                    party: Party::Operator,
                })
            }
        }
    }
}

impl Machine {
    /// Who asks, if the roster has the name.
    pub(super) fn caller_of(&self, by: &Option<Name>) -> Option<Caller>
        ensures { IsCallerOf self.now.state.roster by.now result }
    {
        match by {
            None => None,
            Some(name) => Caller::named(&self.roster, name),
        }
    }

    /// Whether the caller is the operator.
    pub(super) fn is_operator(&self, caller: &Caller) -> bool
        requires { IsCaller self.now.state.roster caller.now }
        ensures { result ≡ is_operator self.now.state.roster caller.now.name }
    {
        matches!(caller.party, Party::Operator)
    }

    /// The caller's place among the members; the operator has none.
    pub(super) fn member(&self, caller: &Caller) -> Option<MemberNo>
        requires { IsCaller self.now.state.roster caller.now }
        ensures { result ≡ member_place self.now.state.roster caller.now.name }
    {
        match caller.party {
            Party::Operator => None,
            Party::Member(member) => Some(member),
        }
    }

    /// The same, and 0 for the operator.
    pub(super) fn place_of(&self, caller: &Caller) -> MemberNo
        requires { IsCaller self.now.state.roster caller.now }
        ensures { result ≡ member_of self.now.state caller.now.name }
    {
        self.member(caller).unwrap_or(MemberNo(0))
    }

    /// Whether the caller is the member at this place.
    pub(super) fn is_at(&self, caller: &Caller, place: MemberNo) -> bool
        requires { IsCaller self.now.state.roster caller.now }
        ensures { result ≡ is_member_at self.now.state.roster place caller.now.name }
    {
        match caller.party {
            Party::Operator => false,
            Party::Member(member) => place == member,
        }
    }
}
