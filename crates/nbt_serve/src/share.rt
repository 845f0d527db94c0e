//! How many changes of each client a server makes in a second, and what it bars where its store has little room.

ghost use Rattle.std.specs.Prelude.{◌≡◌, ◌≢◌, ◌<◌, ◌↔◌, ◌-◌, ℕ, List, false, nat_eq, if◌then◌else◌, IsTrue, OnOk, OnErr};
ghost use Rattle.nbt_packet.specs.Message.{IsRequest, opcode_of};
ghost use Rattle.nbt_serve.specs.Sharing.{ShareValue, AsksForChange, IsLetIn, SharesBy, count_in, had, one_barred, second_of, share_of};
ghost use Rattle.nbt_serve.specs.Inner.Sharing.{Admits, AdmitsBy, IsHandled};
ghost use Rattle.nbt_serve.specs.declared.share.Admission.TheVariants as to;
ghost use Rattle.nbt_store.specs.declared.room.Room.{Room as RoomValue};

use indexmap::IndexMap;
use nbt_lease::Moment;
use nbt_name::read_word;
use nbt_store::Room;
use std::alloc::{AllocError, Global};
use std::marker::Model;

/// Where the word of R, OPCODE, NM_FLAGS and RCODE stands (RFC 1002 section 4.2.1.1).
const FLAGS: usize = 2;

/// Where that word ends.
const FLAGS_END: usize = 4;

/// How long a share lasts, in milliseconds (our profile).
const SHARE: u64 = 1_000;

/// What becomes of a datagram by its client's share.
#[derive(Clone, Copy, Debug, PartialEq, Eq)]
pub(crate) enum Admission {
    /// It is handled, and no share is touched: there is no limit, or it asks for no change.
    Free,
    /// It is handled, and counted as if it made a change.
    Counted,
    /// It is lost: its client has had its share, memory was refused, or the store has no room for what may come of it.
    Barred,
}

impl Admission {
    /// Whether it is lost.
    pub fn is_barred(self) -> bool
        ensures { IsTrue result ↔ (self ≡ to.Barred) }
    {
        matches!(self, Admission::Barred)
    }

    /// Whether it was counted.
    fn is_counted(self) -> bool
        ensures { IsTrue result ↔ (self ≡ to.Counted) }
    {
        matches!(self, Admission::Counted)
    }
}

/// How many changes of each client a server makes in a second of its clock. A client is a 32-bit address. A contract sees the limit, the
/// second, how many changes each client had in it, and how many requests were barred.
#[derive(Drop)]
pub struct Share {
    limit: u32,
    second: u64,
    made: IndexMap<u32, u32>,
    barred: u64,
    last_barred: Option<u32>,
}

impl Model for Share {
    ghost use Rattle.nbt_serve.specs.Sharing.{ShareValue};

    ghost Value = { ShareValue };

    ghost view = { λ s. record { limit = s.limit; second = s.second; made = s.made.entries; barred = s.barred } };
}

impl Share {
    /// Each client may have so many changes in a second, or any number where that is 0. Takes no memory.
    pub fn new(alloc: Global, limit: u32) -> Share
        ensures { result ≡ share_of limit }
    {
        Share {
            limit,
            second: 0,
            made: IndexMap::new(alloc),
            barred: 0,
            last_barred: None,
        }
    }

    /// How many changes a client may have in a second; 0 for any number.
    pub fn limit(&self) -> u32
        ensures { result ≡ self.now.limit }
    {
        self.limit
    }

    /// How many requests were barred so far, as far as 64 bits count.
    pub fn barred(&self) -> u64
        ensures { result ≡ self.now.barred }
    {
        self.barred
    }

    /// Whose request was barred last.
    pub fn last_barred(&self) -> Option<u32> {
        self.last_barred
    }

    /// What becomes of a datagram that came now from a client, where the store has so much room. It is barred where it asks for a change and
    /// there is room for none, and where there is room for no line; else as [`Share::admit`] has it.
    pub(crate) fn admit_by(
        &mut self,
        room: Room,
        now: Moment,
        client: u32,
        octets: &[u8],
    ) -> Admission
        ensures { AdmitsBy room now client octets.now self.old result self.new }
    {
        if is_let_in(room, octets) {
            return self.admit(now, client, octets);
        }
        self.bar(client);
        Admission::Barred
    }

    /// What becomes of a datagram that came now from a client. It is barred where it asks for a change and its client has had its share in
    /// this second, or memory was refused to count it. Only a client's first change in a second takes memory.
    fn admit(&mut self, now: Moment, client: u32, octets: &[u8]) -> Admission
        ensures { Admits now client octets.now self.old result self.new }
    {
        if self.limit == 0 {
            return Admission::Free;
        }
        if !asks_for_change(octets) {
            return Admission::Free;
        }
        self.count(now, client)
    }

    /// A client asks for a change now: it is counted, or barred.
    fn count(&mut self, now: Moment, client: u32) -> Admission
        requires limited { 0 < self.old.limit }
        ensures { (octets : List ℕ) → AsksForChange octets → Admits now client octets self.old result self.new }
    {
        let had = self.had(now, client);
        if had >= self.limit {
            self.bar(client);
            return Admission::Barred;
        }
        self.enter(now);
        match self.put(client, had + 1) {
            Ok(()) => Admission::Counted,
            Err(_) => {
                self.bar(client);
                Admission::Barred
            }
        }
    }

    /// The datagram of a client that was admitted so was handled: whether it made a change.
    pub(crate) fn settle(&mut self, admission: Admission, client: u32, changed: bool)
        ensures { (room : RoomValue) (now : ℕ) (octets : List ℕ) (first : ShareValue) → AdmitsBy room now client octets first admission self.old → IsHandled admission → SharesBy room now client octets first false changed self.new }
    {
        if changed {
            return;
        }
        if !admission.is_counted() {
            return;
        }
        self.take_back(client);
    }

    /// How many changes the client had in the second of this moment.
    fn had(&self, now: Moment, client: u32) -> u32
        ensures { result ≡ had self.now now client }
    {
        if self.second != second_of(now) {
            return 0;
        }
        match self.made.get(&client) {
            Some(count) => *count,
            None => 0,
        }
    }

    /// The counts are those of the second of this moment from now on.
    fn enter(&mut self, now: Moment)
        ensures second { self.new.second ≡ second_of now }
        ensures made { (any : ℕ) → count_in self.new.made any ≡ had self.old now any }
        ensures limit { self.new.limit ≡ self.old.limit }
        ensures barred { self.new.barred ≡ self.old.barred }
    {
        let second = second_of(now);
        if self.second != second {
            self.made.clear();
            self.second = second;
        }
    }

    /// The client has had so many changes. Only its first takes memory. If out of memory, all is as before.
    fn put(&mut self, client: u32, count: u32) -> Result<(), AllocError>
        ensures put { OnOk result ((any : ℕ) → count_in self.new.made any ≡ (if nat_eq client any then count else count_in self.old.made any)) }
        ensures unchanged { OnErr result ((any : ℕ) → count_in self.new.made any ≡ count_in self.old.made any) }
        ensures first { OnErr result (count_in self.old.made client ≡ 0) }
        ensures second { self.new.second ≡ self.old.second }
        ensures limit { self.new.limit ≡ self.old.limit }
        ensures barred { self.new.barred ≡ self.old.barred }
    {
        self.made.insert(client, count)?;
        Ok(())
    }

    /// One change fewer of the client, where it has one.
    fn take_back(&mut self, client: u32)
        ensures made { (any : ℕ) → count_in self.new.made any ≡ (if nat_eq client any then count_in self.old.made any - 1 else count_in self.old.made any) }
        ensures second { self.new.second ≡ self.old.second }
        ensures limit { self.new.limit ≡ self.old.limit }
        ensures barred { self.new.barred ≡ self.old.barred }
    {
        if let Some(count) = self.made.get_mut(&client) {
            *count = count.saturating_sub(1);
        }
    }

    /// One request more was barred, of this client.
    fn bar(&mut self, client: u32)
        ensures { self.new ≡ one_barred self.old }
    {
        self.barred = self.barred.saturating_add(1);
        self.last_barred = Some(client);
    }
}

/// The second of a moment.
fn second_of(now: Moment) -> u64
    ensures { result ≡ second_of now }
{
    now.get() / SHARE
}

/// Whether a store with so much room lets a datagram in.
fn is_let_in(room: Room, octets: &[u8]) -> bool
    ensures { IsTrue result ↔ IsLetIn room octets.now }
{
    match room {
        Room::Ample => true,
        Room::TooLong | Room::Scarce => !asks_for_change(octets),
        Room::Spent => false,
    }
}

/// Whether a datagram is a request and no query, by its flags alone.
fn asks_for_change(octets: &[u8]) -> bool
    ensures { IsTrue result ↔ AsksForChange octets.now }
{
    if octets.len() < FLAGS_END {
        return false;
    }
    let flags = read_word(octets, FLAGS);
    is_claim(flags)
}

/// R clear, and an OPCODE other than that of a query.
fn is_claim(flags: u16) -> bool
    ensures { IsTrue result ↔ (IsRequest flags × (opcode_of flags ≢ 0)) }
{
    flags < 0x8000 && flags / 0x800 % 16 != 0
}
