//! Joining fragments (RFC 1002 section 5.3.3).

ghost use Rattle.std.specs.Prelude.{◌≡◌};

use crate::dgram::{Body, Dgram};
use crate::joined::{Dropped, Joined, Step};
use crate::reassembly::Reassembly;
use crate::slot::{Key, Slot};
use crate::slots;
use nbt_lease::Moment;
use std::marker::Model;

/// The fragments of up to `S` unfinished datagrams. A datagram is known by its SOURCE_IP, SOURCE_PORT and DGM_ID.
///
/// Its size is 8 + 1,584 `S` octets: a slot has the two names, and at most 512 octets of data, each with a mark whether it
/// is known.
#[derive(Debug, Drop)]
pub struct Joiner<const S: usize> {
    /// The time of the last packet or sweep, in milliseconds.
    last: u64,
    slots: [Option<Slot>; S],
}

impl<const S: usize> Model for Joiner<S> {
    ghost use Rattle.std.specs.List.{All};
    ghost use Rattle.nbt_dgram.specs.Inner.Joining.{HasRoom};
    ghost use Rattle.nbt_dgram.specs.Joiner.{JoinerValue, joiner_of};

    ghost Value = { JoinerValue };

    ghost view = { λ j. joiner_of j.last j.slots };

    ghost invariant = { λ j. All HasRoom j.slots };
}

impl<const S: usize> Joiner<S> {
    ghost use Rattle.std.specs.Prelude.{◌≡◌, replicate, None};
    ghost use Rattle.nbt_dgram.specs.Dgram.{dgram_of};
    ghost use Rattle.nbt_dgram.specs.Joiner.{joiner_of, joined_of, IsData, Puts, Sweeps};

    /// A joiner without unfinished datagrams, whose last time is 0.
    pub fn new() -> Self
        ensures { result ≡ joiner_of 0 (replicate S None) }
    {
        Joiner {
            last: 0,
            slots: Default::default(),
        }
    }

    /// Handles a packet with data: a whole datagram, or a fragment of one. The caller must ensure that it has data, which
    /// `Dgram::has_data` tests. In this order:
    ///
    /// - `ClockBack` (4) where `now` is before an earlier packet or sweep; nothing changes then. Otherwise each
    ///   datagram that began more than 2,000 ms before is given up first.
    /// - A packet with F set and M clear is `Whole` at once, of any length, and touches no slot.
    /// - `TooLong` (1) where the fragment ends past 512 octets; its datagram's slot is emptied.
    /// - `Full` (3) where no slot has its datagram, and none is free.
    /// - `Conflict` (2) where it doesn't agree with the fragments before it: it has another type, other names, or another
    ///   octet at a known place; it ends past the known end; or it is the last one, and ends elsewhere than the known end
    ///   or before a known octet. Its datagram's slot is emptied.
    /// - `Whole` where the first fragment, the last one and every octet between are known; the slot is then free.
    ///   Otherwise `Waiting`.
    ///
    /// What is put together from fragments stands in `room`, which lends it.
    ///
    /// Our profile, after RFC 1002 section 5.3.3.
    pub fn put<'a>(
        &mut self,
        now: Moment,
        dgram: &Dgram<'a>,
        room: &'a mut Reassembly,
    ) -> Joined<'a>
        requires { IsData (dgram_of dgram.now) }
        ensures { Puts self.old now (dgram_of dgram.now) (joined_of result) self.new }
    {
        if now.get() < self.last {
            return Joined::Dropped(Dropped::ClockBack);
        }
        self.last = now.get();
        slots::give_up(&mut self.slots, now);
        let Body::Fragment(fragment) = &dgram.body else {
            unreachable!();
        };
        if let Some(names) = fragment.names_if_whole() {
            return Joined::Whole(names.copy(), fragment.payload);
        }
        let key = Key {
            source: dgram.source,
            id: dgram.id,
        };
        match slots::join(&mut self.slots, now, key, fragment, room) {
            Step::Whole => room.joined(),
            Step::Waiting => Joined::Waiting,
            Step::Dropped(reason) => Joined::Dropped(reason),
        }
    }

    /// Gives up each datagram that began more than 2,000 ms before, and returns how many these were; where `now` is
    /// before an earlier packet or sweep, 0, and nothing changes.
    pub fn sweep(&mut self, now: Moment) -> usize
        ensures { Sweeps self.old now result self.new }
    {
        if now.get() < self.last {
            return 0;
        }
        self.last = now.get();
        slots::give_up(&mut self.slots, now)
    }
}
