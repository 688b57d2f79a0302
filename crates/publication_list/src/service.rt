//! What is asked of a list, and how it is answered.
ghost use Rattle.std.specs.Prelude.{◌≡◌};

/// Which requests belong to a list, and what a reply owes to its request. A is a request, B a reply, and K what the list is
/// told when it is made.
pub trait Service<A, B, K> {
    /// The request belongs to a list that was told the key.
    ghost fits: { K → A → Type 0 };

    /// The reply answers the request.
    ghost answers: { A → B → Type 0 };
}
