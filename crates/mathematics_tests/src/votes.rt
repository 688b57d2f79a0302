//! Whose votes a plan needs, and how they come in.

use crate::networks::so;
use acceptance::{
    Votes, gross_follows, nets_stay, plan_is_executable, plan_is_free, plan_is_of_the_frozen,
    plan_realises, touched,
};
use command_types::PlanRow;
use std::alloc::AllocError;
use std::test::Fail;
use units_core::{Amount, Day, MemberNo, ProductNo};

const FIRST: MemberNo = MemberNo(0);

const OTHER: MemberNo = MemberNo(64);

const LAST: MemberNo = MemberNo(255);

/// Whether so many votes are left, and whether each of these members is needed and has accepted as it says.
fn stand(votes: &Votes, left: u32, members: &[(MemberNo, bool, bool)]) -> bool {
    for &(member, needed, accepted) in members {
        if member.0 > 255 || votes.needs(member) != needed || votes.has(member) != accepted {
            return false;
        }
    }
    votes.left() == left
}

/// The member accepts, where its vote is needed and has not come in yet.
fn try_accept(votes: &mut Votes, member: MemberNo) -> bool {
    if member.0 > 255 || !votes.needs(member) || votes.has(member) {
        return false;
    }
    votes.accept(member);
    true
}

#[test]
fn a_new_trade_needs_both_parties() -> Result<(), Fail> {
    let amount = Amount::new(7).ok_or(AllocError)?;
    let day = Day::new(2026, 3, 31).ok_or(AllocError)?;
    let plan = [PlanRow::New {
        product: ProductNo(0),
        seller: FIRST,
        buyer: LAST,
        amount,
        day,
    }];
    let mut votes = touched(&[], &plan, 256);
    let before = [
        (FIRST, true, false),
        (OTHER, false, false),
        (LAST, true, false),
    ];
    let after = [
        (FIRST, true, false),
        (OTHER, false, false),
        (LAST, true, true),
    ];
    let holds = stand(&votes, 2, &before)
        && try_accept(&mut votes, LAST)
        && stand(&votes, 1, &after);
    so(holds, "the votes are otherwise")
}

#[test]
fn an_empty_plan_needs_nobody() -> Result<(), Fail> {
    let votes = touched(&[], &[], 256);
    so(stand(&votes, 0, &[(FIRST, false, false)]), "it needs votes")
}

#[test]
fn the_laws_are_called() -> Result<(), Fail> {
    plan_realises();
    plan_is_free();
    plan_is_executable();
    nets_stay();
    gross_follows();
    plan_is_of_the_frozen();
    Ok(())
}
