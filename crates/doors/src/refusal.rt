//! What the system tells where it gives no connection, by Linux's numbers.

use std::io;

/// What it means to a door that the system gave it no connection.
#[derive(Clone, Copy, Debug, PartialEq, Eq)]
pub(crate) enum Refusal {
    /// The connection that was due is gone. Another can be had at once.
    Gone,
    /// The machine is short of descriptors or memory, or a rule of its network forbids this connection. Another may be had in
    /// a while.
    Short,
    /// The socket gives none any more.
    Lasting,
}

const EPERM: i32 = 1;

const EINTR: i32 = 4;

const ENOMEM: i32 = 12;

const ENFILE: i32 = 23;

const EMFILE: i32 = 24;

const ENONET: i32 = 64;

const EPROTO: i32 = 71;

const ENOPROTOOPT: i32 = 92;

const EOPNOTSUPP: i32 = 95;

const ENETDOWN: i32 = 100;

const ENETUNREACH: i32 = 101;

const ECONNABORTED: i32 = 103;

const ECONNRESET: i32 = 104;

const ENOBUFS: i32 = 105;

const ETIMEDOUT: i32 = 110;

const EHOSTDOWN: i32 = 112;

const EHOSTUNREACH: i32 = 113;

/// What this fault of a call for a connection means. Linux hands a fault of the network on the connection that is due to the
/// call for it; `accept(2)` names these.
pub(crate) fn refusal_of(error: &io::Error) -> Refusal {
    let Some(code) = error.raw_os_error() else {
        return Refusal::Lasting;
    };
    match code {
        EINTR
        | ENONET
        | EPROTO
        | ENOPROTOOPT
        | EOPNOTSUPP
        | ENETDOWN
        | ENETUNREACH
        | ECONNABORTED
        | ECONNRESET
        | ETIMEDOUT
        | EHOSTDOWN
        | EHOSTUNREACH => Refusal::Gone,
        EPERM | ENOMEM | ENFILE | EMFILE | ENOBUFS => Refusal::Short,
        _ => Refusal::Lasting,
    }
}
