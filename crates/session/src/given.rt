//! A reply that may be written.

ghost use Rattle.session.specs.Given.{IsGiven};
ghost use Rattle.session.specs.Serving.{of_pass};

use command_types::Reply;
use cycle_lock::Pass;

/// A reply, shown with the session's pass, in whose history it is right at its position. A change is at the end of what its own
/// call has seen: so the reply that tells it can't be shown before that call has returned.
#[derive(Drop)]
pub struct Given<'a> {
    pub reply: &'a Reply,
    pub pass: &'a Pass,
    pub ghost given: { ∥ IsGiven (of_pass pass.now) reply.now ∥₁ },
}
