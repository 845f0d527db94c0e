//! The map of names: how it hashes them.

ghost use Rattle.std.specs.Prelude.{◌≡◌};
ghost use Rattle.nbt_lease.specs.Inner.Hashing.{hasher_of};

use crate::named::Named;
use indexmap::IndexMap;
use nbt_name::Name;
use std::hash::{BuildHasher, DefaultHasher, RandomState};

/// The members of each name, in the order of the names' beginnings, but where one went.
pub(crate) type ByName = IndexMap<Name, Named, Hashing>;

/// How names are hashed: in the same way in each run, or by keys that the system drew, so that nobody can choose names with
/// equal hashes.
#[derive(Clone, Copy)]
pub(crate) enum Hashing {
    Fixed,
    Keyed(RandomState),
}

impl BuildHasher for Hashing {
    type Hasher = DefaultHasher;

    ghost build_hasher = { hasher_of };

    fn build_hasher(&self) -> DefaultHasher {
        match self {
            Hashing::Fixed => DefaultHasher::new(),
            Hashing::Keyed(keys) => keys.build_hasher(),
        }
    }
}
