//! A datagram that is kept from the server.

ghost use Rattle.std.specs.Prelude.{◌≡◌, ◌↔◌, ◌≤◌, ℕ, List, IfNone, IfSome, IsTrue, length};
ghost use Rattle.nbt_confirm.specs.declared.request.Came.{Came as Way};
ghost use Rattle.nbt_waits.specs.Looking.{IsBack, IsLookedAt, aside, back, nothing};

use arrayvec::ArrayVec;
use nbt_confirm::Came;
use nbt_name::Addr;
use std::marker::Model;

/// What became of a datagram that was set aside.
#[derive(Clone, Copy, Debug, PartialEq, Eq)]
enum Place {
    /// There is none.
    Nowhere,
    /// It waits to be looked at.
    Aside,
    /// It comes to the server next.
    Back,
}

/// A datagram that was set aside, if there is one, of 2,048 octets at most. It is looked at between two turns of the server, and may come to
/// it after that.
#[derive(Drop)]
pub struct Aside {
    place: Place,
    came: Came,
    octets: ArrayVec<u8, 2048>,
}

impl Model for Aside {
    ghost use Rattle.nbt_waits.specs.Looking.{Kept};
    ghost use Rattle.nbt_waits.specs.Inner.Placing.{kept_of};

    ghost Value = { Kept };

    ghost view = { λ a. kept_of a.place a.came a.octets.items };
}

impl Aside {
    /// None yet.
    pub fn new() -> Aside
        ensures { result ≡ nothing }
    {
        Aside {
            place: Place::Nowhere,
            came: Came {
                from: Addr { ip: 0, port: 0 },
                local: None,
                flags: 0,
            },
            octets: ArrayVec::new(),
        }
    }

    /// Whether one waits to be looked at.
    pub fn is_there(&self) -> bool
        ensures { IsTrue result ↔ IsLookedAt self.now }
    {
        self.place == Place::Aside
    }

    /// How it came.
    pub fn came(&self) -> Came
        ensures { (came : Way) (octets : List ℕ) → self.now ≡ aside came octets → result ≡ came }
    {
        self.came
    }

    /// Its octets.
    pub fn octets(&self) -> &[u8]
        ensures { (came : Way) (octets : List ℕ) → self.now ≡ aside came octets → result.now ≡ octets }
    {
        self.octets.as_slice()
    }

    /// Sets these octets aside, which came so.
    pub fn put(&mut self, came: Came, octets: &[u8])
        requires { length octets.now ≤ 2048 }
        ensures { self.new ≡ aside came octets.now }
    {
        self.place = Place::Aside;
        self.came = came;
        self.octets.clear();
        self.octets.try_extend_from_slice(octets).unwrap();
    }

    /// It is looked at, and comes to nobody.
    pub fn let_go(&mut self)
        ensures { self.new ≡ nothing }
    {
        self.place = Place::Nowhere;
    }

    /// It is looked at, and comes to the server next.
    pub fn come_back(&mut self)
        ensures { (came : Way) (octets : List ℕ) → self.old ≡ aside came octets → self.new ≡ back came octets }
    {
        self.place = Place::Back;
    }

    /// Leaves in `octets` what is to come to the server, and returns how it came; `None`, with `octets` as they were, if there is none.
    pub fn take_back(&mut self, octets: &mut ArrayVec<u8, 2048>) -> Option<Came>
        ensures back { IfSome result (λ came. (self.old ≡ back came octets.new.items) × (self.new ≡ nothing)) }
        ensures none { IfNone result ((¬ IsBack self.old) × (self.new ≡ self.old) × (octets.new.items ≡ octets.old.items)) }
    {
        if self.place != Place::Back {
            return None;
        }
        self.place = Place::Nowhere;
        octets.clear();
        octets
            .try_extend_from_slice(self.octets.as_slice())
            .unwrap();
        Some(self.came)
    }
}
