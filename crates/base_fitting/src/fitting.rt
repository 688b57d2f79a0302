//! All that a base needs to fit a roster.

ghost use Rattle.std.specs.Prelude.{ℕ, ◌≡◌, ◌↔◌, ◌≤◌, length, map, All, IsTrue};
ghost use Rattle.command_types.specs.declared.roster.MemberRow.{MemberRow};
ghost use Rattle.command_types.specs.declared.roster.ProductRow.{ProductRow};
ghost use Rattle.command_types.specs.Bases.{Fits, IsSettingIn, IsTradeIn};
ghost use Rattle.command_types.specs.Trades.{gross_of};
ghost use Rattle.units_core.specs.declared.limits.TheConstants.{MOST_GROSS, MOST_NUMBER};

use crate::gross::is_bounded;
use crate::names::{are_members, are_products};
use crate::settings::are_settings_in;
use crate::trades::{are_few, are_trades_in};
use command_types::{Base, Roster};
use units_core::MOST_NUMBER;

// Whether the position and the two numbers of the last cycle leave room for more.
fn has_small_numbers(base: &Base) -> bool
    ensures { IsTrue result ↔ ((base.now.position ≤ MOST_NUMBER) × (base.now.cycle ≤ MOST_NUMBER) × (base.now.version ≤ MOST_NUMBER)) }
{
    base.position <= MOST_NUMBER && base.cycle <= MOST_NUMBER && base.version <= MOST_NUMBER
}

// Whether the names are the roster's.
fn has_names_of(base: &Base, roster: &Roster) -> bool
    ensures { IsTrue result ↔ ((base.now.members ≡ map (λ (row : MemberRow). row.name) roster.now.members) × (base.now.products ≡ map (λ (row : ProductRow). row.name) roster.now.products)) }
{
    let members = base.members.rows();
    let products = base.products.rows();
    are_members(members, roster.members()) && are_products(products, roster.products())
}

// Whether the settings are of the roster's places.
fn has_settings_of(base: &Base, roster: &Roster) -> bool
    ensures { IsTrue result ↔ All (IsSettingIn (length roster.now.members) (length roster.now.products)) base.now.tolerances }
{
    let members = roster.members().len();
    let products = roster.products().len();
    are_settings_in(base.tolerances.rows(), members, products)
}

// Whether the trades are of the roster's places.
fn has_trades_of(base: &Base, roster: &Roster) -> bool
    ensures { IsTrue result ↔ All (IsTradeIn (length roster.now.members) (length roster.now.products)) base.now.trades }
{
    let members = roster.members().len();
    let products = roster.products().len();
    are_trades_in(base.trades.rows(), members, products)
}

// Whether no product of the roster has too much in trades of its places.
fn is_bounded_for(base: &Base, roster: &Roster) -> bool
    requires { All (IsTradeIn (length roster.now.members) (length roster.now.products)) base.now.trades }
    ensures { IsTrue result ↔ ((product : ℕ) → gross_of product base.now.trades ≤ MOST_GROSS) }
{
    is_bounded(base.trades.rows(), roster.products().len())
}

/// Whether what is written of the base fits the roster: small numbers, the roster's names, settings and trades of its places,
/// no product's amounts over 10^18, and at most 100,000 submitted trades. It takes no memory.
pub fn fits(base: &Base, roster: &Roster) -> bool
    ensures { IsTrue result ↔ Fits roster.now base.now }
{
    if !has_small_numbers(base) || !has_names_of(base, roster) {
        return false;
    }
    if !has_settings_of(base, roster) || !has_trades_of(base, roster) {
        return false;
    }
    if !is_bounded_for(base, roster) {
        return false;
    }
    are_few(base.trades.rows())
}
