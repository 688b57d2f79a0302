//! The laws of the certificate, each the contract of a function that does nothing.
//!
//! They are the weak and strong duality of minimum-cost flow and its complementary slackness: Ahuja,
//! Magnanti and Orlin, *Network Flows*, the chapter on minimum-cost flows.

ghost use Rattle.network_laws.specs.Laws.{CertifiedIsLeast, BoundIsGross, BoundIsBelow, CertificateIsShared, FreeLimitsReachFloor, NoCycleIsLeft, NoClashIsCertified};

/// A certified network has the least gross of all admissible ones.
pub fn certified_is_least()
    ensures { CertifiedIsLeast }
{}

/// The dual bound of a certificate is the gross of its network.
pub fn bound_is_gross()
    ensures { BoundIsGross }
{}

/// A dual bound is at most the gross of each admissible network.
pub fn bound_is_below()
    ensures { BoundIsBelow }
{}

/// A certificate serves each admissible network of the same gross.
pub fn certificate_is_shared()
    ensures { CertificateIsShared }
{}

/// Where every lower bound is 0 and no pair has an upper bound, the gross of a certified network is the
/// sum of the positive net positions.
pub fn free_limits_reach_floor()
    ensures { FreeLimitsReachFloor }
{}

/// Where every lower bound is 0, no directed cycle of positive amounts is left in a certified network.
pub fn no_cycle_is_left()
    ensures { NoCycleIsLeft }
{}

/// A network is certified exactly where no clash is found.
pub fn no_clash_is_certified()
    ensures { NoClashIsCertified }
{}
