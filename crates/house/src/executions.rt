//! The replies that told an execution and their moments, kept where they are asked for while a journal's changes are made again.

ghost use Rattle.std.specs.Prelude.{◌≡◌, [], ◌++◌, Some, None, option_map, OnOk};
ghost use Rattle.trade_history.specs.Laws.{is_execution};
ghost use Rattle.house.specs.Executions.{told_by, told_of};

use command_types::{Answer, Moment, Reply};
use std::alloc::{AllocError, Global};

/// A reply, and the moment of the command that it answers.
#[derive(Drop)]
pub struct Dated {
    pub reply: Reply,
    pub moment: Moment,
}

/// The replies that told an execution so far, or that they are not kept.
#[derive(Drop)]
pub struct Executions {
    pub replies: Option<Vec<Dated>>,
}

// Whether the answer tells an execution.
fn is_execution(answer: &Answer) -> bool
    ensures { result ≡ is_execution answer.now }
{
    matches!(answer, Answer::Nothing { .. } | Answer::Executed { .. })
}

impl Executions {
    /// They are not kept.
    pub fn unkept() -> Executions
        ensures { told_of result ≡ None }
    {
        Executions { replies: None }
    }

    /// None so far.
    pub fn none(alloc: Global) -> Executions
        ensures { told_of result ≡ Some [] }
    {
        Executions {
            replies: Some(Vec::new(alloc)),
        }
    }

    /// Keeps the reply at this position to a command of this moment, where it tells an execution. The only error is want of
    /// memory.
    pub(crate) fn note(&mut self, at: u64, answer: Answer, moment: Moment) -> Result<(), AllocError>
        ensures { OnOk result (told_of self.new ≡ option_map (λ replies. replies ++ told_by at answer moment) (told_of self.old)) }
    {
        if !is_execution(&answer) {
            return Ok(());
        }
        match &mut self.replies {
            None => Ok(()),
            Some(replies) => {
                let reply = Reply { at, answer };
                replies.push(Dated { reply, moment })?;
                Ok(())
            }
        }
    }
}
