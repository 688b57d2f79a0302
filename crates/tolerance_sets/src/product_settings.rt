//! The settings of a product, with marks at the members that made any: what a pair of others allows needs no look-up.

ghost use Rattle.std.specs.Prelude.{◌≡◌, ℕ, ◌%◌, [], false, true, slice_index_or};
ghost use Rattle.std.specs.List.{list_any};
ghost use Rattle.indexmap.specs.IndexMap.{values};
ghost use Rattle.command_types.specs.Tolerances.{floor_in, ceiling_in};
ghost use Rattle.tolerance_sets.specs.Settings.{sets_in, HaveNoCeiling};

use crate::settings::{Levels, Settings};
use command_types::{Side, ToleranceRow};
use indexmap::IndexMap;
use std::marker::Model;
use units_core::{MemberNo, ProductNo};

/// How many members have a mark of their own.
const MARKS: usize = 256;

/// For each member whether a setting of a product is one of its own. No other has one.
pub(super) fn marks_of(rows: &IndexMap<u64, ToleranceRow>, product: ProductNo) -> [bool; 256]
    ensures { (member : ℕ) → slice_index_or result (member % 256) false ≡ false → list_any (sets_in product member) (values rows.now) ≡ false }
{
    let mut marks = [false; MARKS];
    let entries = rows.as_slice();
    for place in 0..entries.len() {
        let Some((_place, row)) = entries.get_index(place) else {
            unreachable!()
        };
        if row.product == product {
            marks[row.member.index() % MARKS] = true;
        }
    }
    marks
}

/// Settings, of which those of a product are asked for. Contracts see the settings.
#[derive(Drop)]
pub(super) struct ProductSettings<'a> {
    settings: &'a Settings,
    product: ProductNo,
    marks: [bool; 256],
}

impl<'a> Model for ProductSettings<'a> {
    ghost use Rattle.tolerance_sets.specs.Settings.{SettingsView, AreMarked};

    ghost Value = { SettingsView };

    ghost view = { λ p. p.settings.now };

    ghost invariant = { λ p. AreMarked p.settings.now.settings p.product p.marks };
}

impl<'a> ProductSettings<'a> {
    /// These, asked for this product. It goes over all settings once, and takes no memory.
    pub(super) fn of(settings: &'a Settings, product: ProductNo) -> ProductSettings<'a>
        ensures { result ≡ settings.now }
    {
        ProductSettings {
            settings,
            product,
            marks: settings.marks(product),
        }
    }

    /// What a member allows for its side of a pair.
    #[inline(always)]
    pub(super) fn levels_of(
        &self,
        member: MemberNo,
        product: ProductNo,
        other: MemberNo,
        side: Side,
    ) -> Levels
        ensures floor { result.floor ≡ floor_in self.now.settings member product other side }
        ensures ceiling { result.ceiling ≡ ceiling_in self.now.settings member product other side }
    {
        if product == self.product && !self.marks[member.index() % MARKS] {
            return Levels {
                floor: 0,
                ceiling: None,
            };
        }
        self.settings.levels_of(member, product, other, side)
    }

    /// Whether no member set anything.
    pub(super) fn is_empty(&self) -> bool
        ensures { result ≡ true → self.now.settings ≡ [] }
    {
        self.settings.is_empty()
    }

    /// Whether no member set a ceiling in a product. It may say no where none did.
    pub(super) fn have_no_ceiling(&self, product: ProductNo) -> bool
        ensures { result ≡ true → HaveNoCeiling self.now.settings product }
    {
        self.settings.have_no_ceiling(product)
    }
}
