//! How much room a store has for lines to come.

ghost use Rattle.std.specs.Prelude.{◌≡◌, ◌↔◌, IsTrue};
ghost use Rattle.nbt_store.specs.declared.room.Room.TheVariants.{Ample, Spent};

/// How much room there is for lines to come.
#[derive(Clone, Copy, Debug, PartialEq, Eq)]
pub enum Room {
    /// There is room for changes.
    Ample,
    /// The file has as many lines as it may: there is room for times alone.
    TooLong,
    /// The disk is full: there is room for times alone.
    Scarce,
    /// The disk is full: there is room for no line.
    Spent,
}

impl Room {
    /// Whether there is room for changes.
    pub fn is_ample(self) -> bool
        ensures { IsTrue result ↔ (self ≡ Ample) }
    {
        matches!(self, Room::Ample)
    }

    /// Whether there is room for no line.
    pub fn is_spent(self) -> bool
        ensures { IsTrue result ↔ (self ≡ Spent) }
    {
        matches!(self, Room::Spent)
    }
}
