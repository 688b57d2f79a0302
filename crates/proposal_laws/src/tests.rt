//! The laws, each called once, and a PROPOSE in small histories worked by hand.

ghost use Rattle.proposal_laws.specs.Examples.{posted, cancelled, begun_by_two, IsProposedIn, IsOvertakenIn, IsBegunAlone, nothing_text, phase_text, version_text, begun_text};

use crate::{
    others_overtake, proposals_alone_stand, proposals_are_never_bad, proposals_are_overtaken,
    script_texts_are_one, scripts_stand_alone,
};
use std::test::Fail;

fn alone_it_is_posted()
    ensures { IsProposedIn posted nothing_text }
{}

fn a_cancel_overtakes_it()
    ensures { IsOvertakenIn cancelled phase_text }
{}

fn another_begin_overtakes_it()
    ensures { IsOvertakenIn begun_by_two version_text }
{}

fn alone_it_begins()
    ensures { IsBegunAlone begun_text }
{}

#[test]
fn the_law_on_texts_has_a_script(_rt: HostRuntime) -> Result<(), Fail> {
    alone_it_begins();
    script_texts_are_one();
    Ok(())
}

#[test]
fn proposals_are_replied_to_as_written(_rt: HostRuntime) -> Result<(), Fail> {
    alone_it_is_posted();
    a_cancel_overtakes_it();
    another_begin_overtakes_it();
    Ok(())
}

#[test]
fn the_laws_can_be_called(_rt: HostRuntime) -> Result<(), Fail> {
    proposals_are_never_bad();
    proposals_are_overtaken();
    proposals_alone_stand();
    scripts_stand_alone();
    others_overtake();
    Ok(())
}
