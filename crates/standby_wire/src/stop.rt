//! Why nothing was read.
ghost use Rattle.std.specs.Prelude.{◌≡◌};
ghost use Rattle.standby_wire.specs.declared.stop.NoReply.TheVariants.{Stopped};

/// Why nothing of a form was read of the bytes that there are.
#[derive(Clone, Copy, Debug, PartialEq, Eq)]
pub enum Stop {
    /// They may go on to a text of the form.
    More,
    /// No text of the form begins so.
    Bad,
}

/// Why no reply was read of them.
#[derive(Clone, Copy, Debug, PartialEq, Eq)]
pub enum NoReply {
    /// They are none, or none yet.
    Stopped(Stop),
    /// There was no memory for what they say.
    Memory,
}

impl From<Stop> for NoReply {
    ghost from_gives = { λ stop e. e ≡ Stopped stop };

    fn from(stop: Stop) -> NoReply {
        NoReply::Stopped(stop)
    }
}
