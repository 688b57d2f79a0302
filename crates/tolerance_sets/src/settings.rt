//! The settings of all members, each found by its place: by its member, product, other member and side.

ghost use Rattle.std.specs.Prelude.{◌≡◌, true, ◌+◌, ◌<◌, ◌≤◌, ◌^◌, [], length, max, IsOk, IfOk, OnOk, OnErr};
ghost use Rattle.command_types.specs.Tolerances.{side_place, setting_place, is_setting_of, floor_in, ceiling_in, with_setting};
ghost use Rattle.std.specs.List.{list_any};
ghost use Rattle.std.specs.BTreeMap.{values as ordered_values};
ghost use Rattle.indexmap.specs.IndexMap.{spare, values};
ghost use Rattle.tolerance_sets.specs.Settings.{place_of, settings_of, put_over, IsKeptBy, AreKept, AtPlaces, sets_ceiling, AreMarked, HaveNoCeiling};

use crate::product_settings::marks_of;
use command_types::{Level, Side, ToleranceRow};
use indexmap::IndexMap;
use std::alloc::{AllocError, Global};
use std::collections::BTreeMap;
use std::marker::Model;
use units_core::{MemberNo, ProductNo};

/// What a member allows for its side of a pair, in units of the contract's currency. Where it set nothing the floor
/// is 0, and there is no ceiling.
#[derive(Clone, Copy)]
pub(super) struct Levels {
    pub floor: u64,
    pub ceiling: Option<Level>,
}

/// Settings, each kept by its place. Contracts see them in the order of their places, how many there are, and for how many more
/// there is room.
#[derive(Drop)]
pub(super) struct Settings {
    rows: IndexMap<u64, ToleranceRow>,
    spare: usize,
}

impl Model for Settings {
    ghost use Rattle.indexmap.specs.IndexMap.{spare as map_spare};
    ghost use Rattle.std.specs.Prelude.{length};
    ghost use Rattle.tolerance_sets.specs.Settings.{SettingsView, IsStore, settings_of};

    ghost Value = { SettingsView };

    ghost view = { λ s. record { settings = settings_of s.rows.entries; count = length s.rows.entries; spare = s.spare } };

    ghost invariant = { λ s. IsStore s.rows.entries s.spare (map_spare s.rows) };
}

fn side_number(side: Side) -> u64
    ensures side { result ≡ side_place side }
    ensures few { result ≤ 1 }
{
    match side {
        Side::Out => 0,
        Side::In => 1,
    }
}

// Where the setting of a member for its side of a pair stands in the order.
fn place(member: MemberNo, product: ProductNo, other: MemberNo, side: Side) -> u64
    ensures place { result ≡ place_of member product other (side_place side) }
    ensures member { member < 65536 }
    ensures product { product < 65536 }
    ensures other { other < 65536 }
{
    let pair = (u64::from(member.0) * 65536 + u64::from(product.0)) * 65536 + u64::from(other.0);
    pair * 2 + side_number(side)
}

fn place_of_row(row: &ToleranceRow) -> u64
    ensures { IsKeptBy result row.now }
{
    place(row.member, row.product, row.other, row.side)
}

// Puts a setting at its place, in the room that there is.
fn insert(rows: &mut IndexMap<u64, ToleranceRow>, new: ToleranceRow)
    requires room { 0 < spare rows.old }
    requires kept { AreKept rows.old.entries }
    ensures settings { settings_of rows.new.entries ≡ with_setting new (settings_of rows.old.entries) }
    ensures kept { AreKept rows.new.entries }
    ensures count { length rows.new.entries ≤ length rows.old.entries + 1 }
    ensures spare { spare rows.old ≤ spare rows.new + 1 }
{
    let place = place_of_row(&new);
    // The prover has no plan for the whole row as it came.
    let row = ToleranceRow {
        floor: new.floor,
        ..new
    };
    match rows.insert(place, row) {
        Ok(_) => {}
        Err(_) => unreachable!(),
    }
}

// Puts settings into a map that keeps its places in order.
fn put_in_order(
    ordered: &mut BTreeMap<u64, ToleranceRow>,
    rows: &IndexMap<u64, ToleranceRow>,
) -> Result<(), AllocError>
    requires kept { AreKept rows.now.entries }
    requires places { AtPlaces ordered.old.entries }
    ensures settings { OnOk result (ordered_values ordered.new ≡ put_over (ordered_values ordered.old) (settings_of rows.now.entries)) }
    ensures places { OnOk result (AtPlaces ordered.new.entries) }
{
    let entries = rows.as_slice();
    let count = entries.len();
    for behind in 0..count {
        let Some((place, kept)) = entries.get_index(count - 1 - behind) else {
            unreachable!()
        };
        let ceiling: Option<Level> = kept.ceiling;
        let row = ToleranceRow { ceiling, ..*kept };
        ordered.insert(*place, row)?;
    }
    Ok(())
}

// Puts settings over others, in the room that there is.
fn put_rows(settings: &mut Settings, rows: &IndexMap<u64, ToleranceRow>)
    requires { length rows.now.entries ≤ settings.old.spare }
    ensures { settings.new.settings ≡ put_over settings.old.settings (settings_of rows.now.entries) }
{
    let entries = rows.as_slice();
    let count = entries.len();
    for behind in 0..count {
        let Some((_place, kept)) = entries.get_index(count - 1 - behind) else {
            unreachable!()
        };
        let ceiling: Option<Level> = kept.ceiling;
        let row = ToleranceRow { ceiling, ..*kept };
        settings.put(row);
    }
}

// Whether one of the settings has a ceiling in a product.
fn any_ceiling(rows: &IndexMap<u64, ToleranceRow>, product: ProductNo) -> bool
    ensures { result ≡ list_any (sets_ceiling product) (values rows.now) }
{
    rows.values()
        .any(|row| row.product == product && row.ceiling.is_some())
}

impl Settings {
    /// No settings. It takes no memory.
    pub(super) fn new(alloc: Global) -> Settings
        ensures settings { result.settings ≡ [] }
        ensures count { result.count ≡ 0 }
        ensures spare { result.spare ≡ 0 }
    {
        Settings {
            rows: IndexMap::new(alloc),
            spare: 0,
        }
    }

    /// How many there are.
    pub(super) fn count(&self) -> usize
        ensures count { result ≡ self.now.count }
        ensures small { result < 2 ^ 63 }
    {
        self.rows.len()
    }

    /// Makes room for so many more. The only error is want of memory, and it changes nothing.
    pub(super) fn reserve(&mut self, more: usize) -> Result<(), AllocError>
        ensures settings { self.new ≡ record self.old { spare = self.new.spare } }
        ensures room { OnOk result (self.new.spare ≡ max self.old.spare more) }
        ensures enough { more ≤ self.old.spare → IsOk result }
        ensures err { OnErr result (self.new ≡ self.old) }
    {
        if self.spare < more {
            self.rows.reserve(more)?;
            self.spare = more;
        }
        Ok(())
    }

    /// Puts a setting at its place, in the room that there is; an earlier one there is replaced.
    pub(super) fn put(&mut self, new: ToleranceRow)
        requires room { 1 ≤ self.old.spare }
        ensures settings { self.new.settings ≡ with_setting new self.old.settings }
        ensures count { self.new.count ≤ self.old.count + 1 }
        ensures spare { self.new.spare + 1 ≡ self.old.spare }
    {
        insert(&mut self.rows, new);
        self.spare -= 1;
    }

    /// Puts all of these, in the room that there is.
    pub(super) fn put_all(&mut self, more: &Settings)
        requires { more.now.count ≤ self.old.spare }
        ensures { self.new.settings ≡ put_over self.old.settings more.now.settings }
    {
        put_rows(self, &more.rows);
    }

    /// What a member allows for its side of a pair.
    pub(super) fn levels_of(
        &self,
        member: MemberNo,
        product: ProductNo,
        other: MemberNo,
        side: Side,
    ) -> Levels
        ensures floor { result.floor ≡ floor_in self.now.settings member product other side }
        ensures ceiling { result.ceiling ≡ ceiling_in self.now.settings member product other side }
    {
        if self.rows.is_empty() {
            return Levels {
                floor: 0,
                ceiling: None,
            };
        }
        match self.rows.get(&place(member, product, other, side)) {
            Some(row) => Levels {
                floor: row.floor.get(),
                ceiling: row.ceiling,
            },
            None => Levels {
                floor: 0,
                ceiling: None,
            },
        }
    }

    /// For each member whether it may have set anything in a product.
    pub(super) fn marks(&self, product: ProductNo) -> [bool; 256]
        ensures { AreMarked self.now.settings product result }
    {
        marks_of(&self.rows, product)
    }

    /// All of them, once these were put over them, in the order of their places. The only error is want of memory.
    pub(super) fn in_order(
        &self,
        alloc: Global,
        over: &Settings,
    ) -> Result<Vec<ToleranceRow>, AllocError>
        ensures { IfOk result (λ rows. rows.items ≡ put_over self.now.settings over.now.settings) }
    {
        let mut ordered = BTreeMap::new(alloc);
        put_in_order(&mut ordered, &self.rows)?;
        put_in_order(&mut ordered, &over.rows)?;
        ordered.into_values().collect(alloc)
    }

    /// Whether no member set anything.
    pub(super) fn is_empty(&self) -> bool
        ensures { result ≡ true → self.now.settings ≡ [] }
    {
        self.rows.is_empty()
    }

    /// Whether no member set a ceiling in a product. It may say no where none did.
    pub(super) fn have_no_ceiling(&self, product: ProductNo) -> bool
        ensures { result ≡ true → HaveNoCeiling self.now.settings product }
    {
        !any_ceiling(&self.rows, product)
    }
}
