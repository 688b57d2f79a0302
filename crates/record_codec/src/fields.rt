//! Single fields, each read from the front of the bytes that are left.
ghost use Rattle.std.specs.Prelude.{◌≡◌, ◌≤◌, length, IfOk, OnErr};
ghost use Rattle.record_codec.specs.declared.fault.ReadFault.TheVariants.{Bad};
ghost use Rattle.record_codec.specs.Laws.{Reads};
ghost use Rattle.record_codec.specs.Reading.{field, number_at, moment_in, moment_at, seat_at, row_count_at, count_at, name_at, amount_at, level_at, day_at, side_at, mode_at, given_at, ceiling_at};

use crate::fault::ReadFault;
use command_types::{Level, MOST_MOMENT, Mode, Moment, Side, Spelling};
use units_core::{Amount, Day, Name};

/// The bytes of a record or a base that are still to be read. Reading a field takes no memory; a bad one is left where it stands.
#[derive(Drop)]
pub struct Unread<'a> {
    pub rest: &'a [u8],
}

impl<'a> Unread<'a> {
    /// The fault of a field that begins here.
    pub fn bad(&self) -> ReadFault
        ensures { result ≡ Bad (length self.now.rest.now) }
    {
        ReadFault::Bad {
            left: self.rest.len(),
        }
    }

    /// A number of eight bytes.
    #[tactic(auto, unfolding(crate::specs::Reading::field))]
    pub fn number(&mut self) -> Result<u64, ReadFault>
        ensures reads { Reads (λ n. (n, self.new.rest.now)) result (number_at self.old.rest.now) }
        ensures same { OnErr result (self.new.rest.now ≡ self.old.rest.now) }
    {
        let Some((text, rest)) = self.rest.split_first_chunk() else {
            return Err(self.bad());
        };
        self.rest = rest;
        Ok(u64::from_le_bytes(*text))
    }

    #[tactic(auto, unfolding(crate::specs::Reading::field))]
    pub(crate) fn seat(&mut self) -> Result<u32, ReadFault>
        ensures { Reads (λ n. (n, self.new.rest.now)) result (seat_at self.old.rest.now) }
    {
        let Some((text, rest)) = self.rest.split_first_chunk() else {
            return Err(self.bad());
        };
        self.rest = rest;
        Ok(u32::from_le_bytes(*text))
    }

    #[tactic(auto, unfolding(crate::specs::Reading::field))]
    pub(crate) fn row_count(&mut self) -> Result<u32, ReadFault>
        ensures { Reads (λ n. (n, self.new.rest.now)) result (row_count_at self.old.rest.now) }
    {
        let Some((text, rest)) = self.rest.split_first_chunk() else {
            return Err(self.bad());
        };
        self.rest = rest;
        Ok(u32::from_le_bytes(*text))
    }

    // The moment in front of a record of this spelling.
    #[tactic(auto, unfolding(crate::specs::Reading::field))]
    pub(crate) fn moment(&mut self, form: Spelling) -> Result<Moment, ReadFault>
        ensures { Reads (λ n. (n, self.new.rest.now)) result (moment_at form self.old.rest.now) }
    {
        match form {
            Spelling::First => Ok(Moment::new(0)),
            Spelling::Second => self.told_moment(),
        }
    }

    #[tactic(auto, unfolding(crate::specs::Reading::field))]
    fn told_moment(&mut self) -> Result<Moment, ReadFault>
        ensures { Reads (λ n. (n, self.new.rest.now)) result (field 8 moment_in self.old.rest.now) }
    {
        let Some((text, rest)) = self.rest.split_first_chunk() else {
            return Err(self.bad());
        };
        let seconds = u64::from_le_bytes(*text);
        if seconds > MOST_MOMENT {
            return Err(self.bad());
        }
        self.rest = rest;
        Ok(Moment::new(seconds))
    }

    // A number of two bytes, up to `most`.
    #[tactic(auto, unfolding(crate::specs::Reading::field))]
    pub(crate) fn count(&mut self, most: u16) -> Result<u16, ReadFault>
        ensures reads { Reads (λ n. (n, self.new.rest.now)) result (count_at most self.old.rest.now) }
        ensures within { IfOk result (λ n. n ≤ most) }
    {
        let Some((text, rest)) = self.rest.split_first_chunk() else {
            return Err(self.bad());
        };
        let count = u16::from_le_bytes(*text);
        if count > most {
            return Err(self.bad());
        }
        self.rest = rest;
        Ok(count)
    }

    /// A name, behind the byte with its length.
    #[tactic(auto, unfolding(crate::specs::Reading::field))]
    pub fn name(&mut self) -> Result<Name, ReadFault>
        ensures reads { Reads (λ n. (n, self.new.rest.now)) result (name_at self.old.rest.now) }
        ensures same { OnErr result (self.new.rest.now ≡ self.old.rest.now) }
    {
        let [size, rest @ ..] = self.rest else {
            return Err(self.bad());
        };
        let size = usize::from(*size);
        if rest.len() < size {
            return Err(self.bad());
        }
        let (text, rest) = rest.split_at(size);
        let Some(name) = Name::read(text) else {
            return Err(self.bad());
        };
        self.rest = rest;
        Ok(name)
    }

    /// The amount of a trade.
    #[tactic(auto, unfolding(crate::specs::Reading::field))]
    pub fn amount(&mut self) -> Result<Amount, ReadFault>
        ensures reads { Reads (λ n. (n, self.new.rest.now)) result (amount_at self.old.rest.now) }
        ensures same { OnErr result (self.new.rest.now ≡ self.old.rest.now) }
    {
        let Some((text, rest)) = self.rest.split_first_chunk() else {
            return Err(self.bad());
        };
        let Some(amount) = Amount::new(u64::from_le_bytes(*text)) else {
            return Err(self.bad());
        };
        self.rest = rest;
        Ok(amount)
    }

    /// A floor or a ceiling.
    #[tactic(auto, unfolding(crate::specs::Reading::field))]
    pub fn level(&mut self) -> Result<Level, ReadFault>
        ensures reads { Reads (λ n. (n, self.new.rest.now)) result (level_at self.old.rest.now) }
        ensures same { OnErr result (self.new.rest.now ≡ self.old.rest.now) }
    {
        let Some((text, rest)) = self.rest.split_first_chunk() else {
            return Err(self.bad());
        };
        let Some(level) = Level::new(u64::from_le_bytes(*text)) else {
            return Err(self.bad());
        };
        self.rest = rest;
        Ok(level)
    }

    /// A year of two bytes, a month and a day.
    #[tactic(auto, unfolding(crate::specs::Reading::field))]
    pub fn day(&mut self) -> Result<Day, ReadFault>
        ensures reads { Reads (λ d. (d, self.new.rest.now)) result (day_at self.old.rest.now) }
        ensures same { OnErr result (self.new.rest.now ≡ self.old.rest.now) }
    {
        let Some((text, rest)) = self.rest.split_first_chunk::<4>() else {
            return Err(self.bad());
        };
        let year = u16::from_le_bytes([text[0], text[1]]);
        let Some(day) = Day::new(year, text[2], text[3]) else {
            return Err(self.bad());
        };
        self.rest = rest;
        Ok(day)
    }

    /// The side of a member that a setting is for.
    #[tactic(auto, unfolding(crate::specs::Reading::field))]
    pub fn side(&mut self) -> Result<Side, ReadFault>
        ensures reads { Reads (λ s. (s, self.new.rest.now)) result (side_at self.old.rest.now) }
        ensures same { OnErr result (self.new.rest.now ≡ self.old.rest.now) }
    {
        let (side, rest) = match self.rest {
            [0, rest @ ..] => (Side::Out, rest),
            [1, rest @ ..] => (Side::In, rest),
            _ => return Err(self.bad()),
        };
        self.rest = rest;
        Ok(side)
    }

    #[tactic(auto, unfolding(crate::specs::Reading::field))]
    pub(crate) fn mode(&mut self) -> Result<Mode, ReadFault>
        ensures { Reads (λ m. (m, self.new.rest.now)) result (mode_at self.old.rest.now) }
    {
        let (mode, rest) = match self.rest {
            [0, rest @ ..] => (Mode::Conservative, rest),
            [1, rest @ ..] => (Mode::Hybrid, rest),
            [2, rest @ ..] => (Mode::Free, rest),
            _ => return Err(self.bad()),
        };
        self.rest = rest;
        Ok(mode)
    }

    // Whether a ceiling is given.
    #[tactic(auto, unfolding(crate::specs::Reading::field))]
    fn given(&mut self) -> Result<bool, ReadFault>
        ensures { Reads (λ b. (b, self.new.rest.now)) result (given_at self.old.rest.now) }
    {
        let (given, rest) = match self.rest {
            [0, rest @ ..] => (false, rest),
            [1, rest @ ..] => (true, rest),
            _ => return Err(self.bad()),
        };
        self.rest = rest;
        Ok(given)
    }

    /// A ceiling, behind the byte that says whether one is given.
    #[tactic(auto, unfolding(crate::specs::Reading::ceiling_at))]
    pub fn ceiling(&mut self) -> Result<Option<Level>, ReadFault>
        ensures reads { Reads (λ c. (c, self.new.rest.now)) result (ceiling_at self.old.rest.now) }
        ensures same { OnErr result (self.new.rest.now ≡ self.old.rest.now) }
    {
        let mut behind = Unread { rest: self.rest };
        let ceiling = if behind.given()? {
            Some(behind.level()?)
        } else {
            None
        };
        self.rest = behind.rest;
        Ok(ceiling)
    }
}
