//! Where a network with potentials is not certified.

/// What the test of a certificate finds first. Members are their places in the network.
#[derive(Clone, Copy, PartialEq, Eq)]
pub enum Clash {
    /// The pair's amount is below its lower bound.
    Below { seller: u16, buyer: u16 },
    /// The pair's amount is above its upper bound.
    Above { seller: u16, buyer: u16 },
    /// The member's net position is not the old one.
    Net { member: u16 },
    /// The pair's amount is below its upper bound, and its reduced cost is negative.
    Open { seller: u16, buyer: u16 },
    /// The pair's amount is above its lower bound, and its reduced cost is positive.
    Slack { seller: u16, buyer: u16 },
}
