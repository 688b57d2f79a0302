//! The settings of all members.

ghost use Rattle.std.specs.Prelude.{◌≡◌, ◌≢◌, ◌↔◌, ◌+◌, ◌≤◌, [], length, IsTrue, IsOk, IsErr, IfOk, OnOk, OnErr};
ghost use Rattle.network_laws.specs.Limits.{IsWithinLimits};
ghost use Rattle.command_types.specs.Bases.{AreRising};
ghost use Rattle.command_types.specs.Tolerances.{with_setting, floor_in, ceiling_in, limits_of};
ghost use Rattle.command_types.specs.CycleRefusals.{is_crossed};

use crate::limits::{Market, all_limits, dealers_end};
use crate::product_settings::ProductSettings;
use crate::settings::Settings;
use command_types::{Level, Mode, Roster, Side, ToleranceRow};
use network_laws::{Limits, Network};
use std::alloc::{AllocError, Global};
use std::marker::Model;
use thiserror::Error;
use units_core::{MemberNo, ProductNo};

/// The ceiling is given and is below the floor.
#[derive(Clone, Copy, Debug, Error)]
#[error("the ceiling is below the floor")]
pub struct FloorOverCeiling;

/// What all members allow a compression to change, setting by setting. A member that set nothing for its side of a
/// pair has the floor 0 and no ceiling. Limits are those of the settings that were last taken.
#[derive(Drop)]
pub struct Tolerances {
    taken: Settings,
    /// What was set since.
    since: Settings,
    alloc: Global,
}

impl Model for Tolerances {
    ghost use Rattle.std.specs.Prelude.{◌+◌, ◌≤◌};
    ghost use Rattle.tolerance_sets.specs.Settings.{TolerancesView, put_over};

    ghost Value = { TolerancesView };

    ghost view = { λ t. record { settings = put_over t.taken.settings t.since.settings; taken = t.taken.settings; spare = t.since.spare } };

    ghost invariant = { λ t. t.since.count + t.since.spare ≤ t.taken.spare };
}

fn is_crossed(row: &ToleranceRow) -> bool
    ensures { result ≡ is_crossed row.now.floor row.now.ceiling }
{
    match row.ceiling {
        None => false,
        Some(most) => most.get() < row.floor.get(),
    }
}

impl Tolerances {
    /// No settings. It takes no memory.
    pub fn new(alloc: Global) -> Tolerances
        ensures settings { result.settings ≡ [] }
        ensures taken { result.taken ≡ [] }
    {
        Tolerances {
            taken: Settings::new(alloc),
            since: Settings::new(alloc),
            alloc,
        }
    }

    /// These settings, which stand in rising order of their places. The only error is want of memory.
    pub fn of_rows(alloc: Global, rows: &[ToleranceRow]) -> Result<Tolerances, AllocError>
        requires { AreRising 0 rows.now }
        ensures { IfOk result (λ made. made.settings ≡ rows.now) }
    {
        let mut taken = Settings::new(alloc);
        for row in rows {
            taken.reserve(1)?;
            taken.put(*row);
        }
        let since = Settings::new(alloc);
        Ok(Tolerances {
            taken,
            since,
            alloc,
        })
    }

    /// Every setting that was made, in rising order of their places. The only error is want of memory.
    pub fn rows(&self) -> Result<Vec<ToleranceRow>, AllocError>
        ensures { IfOk result (λ rows. rows.items ≡ self.now.settings) }
    {
        self.taken.in_order(self.alloc, &self.since)
    }

    /// Takes all settings as they are now. It takes no memory, and goes over what was set since they were last taken.
    pub fn take(&mut self)
        ensures settings { self.new.settings ≡ self.old.settings }
        ensures taken { self.new.taken ≡ self.old.settings }
    {
        self.taken.put_all(&self.since);
        self.since = Settings::new(self.alloc);
    }

    /// The least that a member allowed for its side of a pair, when settings were last taken.
    pub fn floor(&self, member: MemberNo, product: ProductNo, other: MemberNo, side: Side) -> u64
        ensures { result ≡ floor_in self.now.taken member product other side }
    {
        self.taken.levels_of(member, product, other, side).floor
    }

    /// The most that it allowed then, if it had set that.
    pub fn ceiling(
        &self,
        member: MemberNo,
        product: ProductNo,
        other: MemberNo,
        side: Side,
    ) -> Option<Level>
        ensures { result ≡ ceiling_in self.now.taken member product other side }
    {
        self.taken.levels_of(member, product, other, side).ceiling
    }

    /// Makes room for one more setting. The only error is want of memory, and it changes nothing.
    pub fn reserve(&mut self) -> Result<(), AllocError>
        ensures settings { self.new ≡ record self.old { spare = self.new.spare } }
        ensures keeps { self.old.spare ≤ self.new.spare }
        ensures room { OnOk result (1 ≤ self.new.spare) }
        ensures enough { 1 ≤ self.old.spare → IsOk result }
        ensures err { OnErr result (self.new ≡ self.old) }
    {
        self.taken.reserve(self.since.count() + 1)?;
        self.since.reserve(1)
    }

    /// What a member allows for what it owes another member in a product (`Out`), or for what it is owed (`In`): an
    /// earlier setting for it is replaced. A ceiling below the floor is refused, and that changes nothing. It takes
    /// no memory, by the room of [`Tolerances::reserve`].
    pub fn set(
        &mut self,
        member: MemberNo,
        product: ProductNo,
        other: MemberNo,
        side: Side,
        floor: Level,
        ceiling: Option<Level>,
    ) -> Result<(), FloorOverCeiling>
        requires room { 1 ≤ self.old.spare }
        ensures refused { IsErr result ↔ IsTrue (is_crossed floor ceiling) }
        ensures settings { OnOk result (self.new.settings ≡ with_setting (record { member = member; product = product; other = other; side = side; floor = floor; ceiling = ceiling }) self.old.settings) }
        ensures taken { self.new.taken ≡ self.old.taken }
        ensures spare { OnOk result (self.old.spare ≤ self.new.spare + 1) }
        ensures err { OnErr result (self.new ≡ self.old) }
    {
        let row = ToleranceRow {
            member,
            product,
            other,
            side,
            floor,
            ceiling,
        };
        if is_crossed(&row) {
            return Err(FloorOverCeiling);
        }
        self.since.put(row);
        Ok(())
    }

    /// The limits that the taken settings give for a product in which members owe one another the amounts of a network, and the
    /// held ones among them those of another: from no less than the larger floor and what is held, to the amount; between two dealers
    /// in hybrid mode, and between any two members in free mode, to the smaller ceiling, if there is one. They never
    /// keep a pair from staying as it is. A pair that may come to nothing but 0 has no row. The only error is want of
    /// memory.
    pub fn limits(
        &self,
        mode: Mode,
        roster: &Roster,
        product: ProductNo,
        network: &Network,
        held: &Network,
    ) -> Result<Limits, AllocError>
        requires members { network.now.members ≡ length roster.now.members }
        ensures limits { IfOk result (λ limits. limits ≡ limits_of mode roster.now.members self.now.taken product network.now held.now) }
        ensures within { IfOk result (λ limits. IsWithinLimits limits network.now) }
    {
        let members = roster.members();
        let settings = ProductSettings::of(&self.taken, product);
        let market = Market {
            mode,
            members,
            dealers_end: dealers_end(members),
            settings: &settings,
            product,
            network: network.rows(),
            held: held.rows(),
        };
        let rows = all_limits(self.alloc, &market)?;
        let Ok(limits) = Limits::from_rows(members.len() as u16, rows) else {
            unreachable!()
        };
        Ok(limits)
    }
}
