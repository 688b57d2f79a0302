//! Calls that one pass makes for others.
ghost use Rattle.std.specs.Prelude.{◌≡◌};

use crate::pass::Pass;
use command_types::{Ask, Reply};
use publication_list::{PublicationList, Published, Server, Service};
use std::snapshot::Snapshot;

/// A pass that waits for its call, and what it asks.
#[derive(Drop)]
pub(crate) struct Errand {
    pub(crate) pass: Pass,
    pub(crate) ask: Ask,
}

/// The pass behind its call, with the reply.
#[derive(Drop)]
pub(crate) struct Done {
    pub(crate) pass: Pass,
    pub(crate) reply: Reply,
}

/// What a call owes to the pass that published its command. The list is told a pass of the lock.
pub(crate) struct Called;

impl Service<Errand, Done, Snapshot<Pass>> for Called {
    ghost use Rattle.cycle_lock.specs.Errands.{IsCalled};
    ghost use Rattle.cycle_lock.specs.Passes.{lock_of};

    ghost fits = { λ key errand. lock_of errand.pass ≡ lock_of key.value };

    ghost answers = { λ errand done. IsCalled errand.pass errand.ask done.pass done.reply };
}

/// The places where passes wait.
pub(crate) type Places = PublicationList<Errand, Done, Snapshot<Pass>, Called>;

/// Who makes their calls.
pub(crate) type Clerk = Server<Errand, Done, Snapshot<Pass>>;

/// A pass and its command that lie at a place.
pub(crate) type Posted = Published<Errand, Done, Snapshot<Pass>>;
