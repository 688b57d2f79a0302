//! The laws on what one member can test of a certificate, each the contract of a function that does nothing.

ghost use Rattle.dual_certificate.specs.OwnLaws.{CertifiedWhereAllMembersAre, CertifiedWhereAllButOneAre, OwnRowsAreEnough, NearPotentialsAreEnough};
ghost use Rattle.dual_certificate.specs.OwnLaws.{NoOwnClashIsCertified, LeastBesideTheSilent, LeastWhereAllButOneSay, GrossIsWhatAllSell};

/// A network is certified exactly where it is so for each member.
pub fn certified_where_all_members_are()
    ensures { CertifiedWhereAllMembersAre }
{}

/// A network is certified where it is so for each member but one: each pair has another side, and the net positions add
/// up to 0.
pub fn certified_where_all_but_one_are()
    ensures { CertifiedWhereAllButOneAre }
{}

/// What a certificate says of a member rests on the rows in which it has a side alone.
pub fn own_rows_are_enough()
    ensures { OwnRowsAreEnough }
{}

/// It rests on the potentials of the member, and of those with which it may have an amount, alone.
pub fn near_potentials_are_enough()
    ensures { NearPotentialsAreEnough }
{}

/// A network is certified for a member exactly where the member finds no clash.
pub fn no_own_clash_is_certified()
    ensures { NoOwnClashIsCertified }
{}

/// Where members are silent, the new network has the least gross of all that are within the limits, have its net
/// positions, and have its amounts between the silent members.
pub fn least_beside_the_silent()
    ensures { LeastBesideTheSilent }
{}

/// Where each member but one finds its own part certified by the potentials that it has seen, the network has the least
/// gross of all admissible ones, if those that may have an amount with a member have seen its potential as it has itself.
pub fn least_where_all_but_one_say()
    ensures { LeastWhereAllButOneSay }
{}

/// The gross is the sum of what each member sold.
pub fn gross_is_what_all_sell()
    ensures { GrossIsWhatAllSell }
{}
