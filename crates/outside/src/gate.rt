//! Gates, which workers pass one by one.

/// A gate that may hold a worker back before it works on a piece.
pub trait Gate: Sync {
    /// Passes the gate with the number of the piece. This may wait.
    fn enter(&self, piece: u64);
}

/// The gate that holds nobody back.
#[derive(Clone, Copy, Drop)]
pub struct OpenGate;

impl Gate for OpenGate {
    fn enter(&self, _piece: u64) {}
}
