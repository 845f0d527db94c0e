//! What holds of datagrams, whatever the code does: laws over the definitions alone.

ghost use Rattle.std.specs.Prelude.{◌≡◌, ◌≢◌, ℕ, ◌≤◌, ◌⊎◌, List, ◌++◌, length, slice_get, Some};
ghost use Rattle.nbt_name.specs.declared.addr.Addr.{Addr};
ghost use Rattle.nbt_name.specs.Wire.{AreOctets};
ghost use Rattle.nbt_node.specs.Node.{NodeValue};
ghost use Rattle.nbt_dgram.specs.declared.fault.DgramFault.{DgramFault};
ghost use Rattle.nbt_dgram.specs.declared.dgram.Names.{Names};
ghost use Rattle.nbt_dgram.specs.declared.slot.Key.{Key};
ghost use Rattle.nbt_dgram.specs.declared.slot.Slot.{Slot};
ghost use Rattle.nbt_dgram.specs.Dgram.{FragmentValue, fragment, DgramValue, DgramIs, FaultIs};
ghost use Rattle.nbt_dgram.specs.Fragments.{MakesUp};
ghost use Rattle.nbt_dgram.specs.Joiner.{JoinedValue, JoinerValue, key_of, Puts};
ghost use Rattle.nbt_dgram.specs.Carrying.{Put, Run, IsAlone, Unfinished, none, since, fragments_in, Leaves, Tells};
ghost use Rattle.nbt_dgram.specs.Accepting.{AcceptValue, Accepts};
ghost use Rattle.nbt_dgram.specs.Slot.{IsWhole, Since};
ghost use Rattle.nbt_dgram.specs.Text.{HoldsNumbers, Fits, text};

/// All octets begin with a datagram or have a fault, only one of the two, and with one value.
pub fn one_datagram_or_fault()
    ensures found { (octets : List ℕ) → AreOctets octets
        → ((d : DgramValue) × (n : ℕ) × DgramIs octets d n) ⊎ ((fault : DgramFault) × FaultIs octets fault) }
    ensures one_datagram { (octets : List ℕ) (a b : DgramValue) (n m : ℕ) → AreOctets octets
        → DgramIs octets a n → DgramIs octets b m → (a ≡ b) × (n ≡ m) }
    ensures one_fault { (octets : List ℕ) (f g : DgramFault) → AreOctets octets
        → FaultIs octets f → FaultIs octets g → f ≡ g }
    ensures not_both { (octets : List ℕ) (d : DgramValue) (n : ℕ) (fault : DgramFault) → AreOctets octets
        → DgramIs octets d n → FaultIs octets fault → ⊥ }
{}

/// The written form of each datagram that fits, followed by any octets, is read as that datagram, and takes its own
/// length.
pub fn written_form_is_read()
    ensures { (d : DgramValue) (rest : List ℕ) → HoldsNumbers d → Fits d
        → DgramIs (text d ++ rest) d (length (text d)) }
{}

/// What is read can be written: each datagram that octets begin with fits.
#[tactic(auto, using(crate::proofs::Fitting::read_fits))]
pub fn what_is_read_fits()
    ensures { (octets : List ℕ) (d : DgramValue) (n : ℕ) → AreOctets octets → DgramIs octets d n → Fits d }
{}

/// Fragments make up at most one row of data.
pub fn fragments_make_up_one_whole()
    ensures { (fragments : List FragmentValue) (a b : List ℕ) → MakesUp fragments a → MakesUp fragments b → a ≡ b }
{}

/// What a joiner knows of a datagram is whole exactly where the fragments that joined since it began make up data; and
/// it is these data.
pub fn a_slot_is_whole_where_its_fragments_make_up_data()
    ensures made_up { (fragments : List FragmentValue) (s : Slot) (names : Names) (payload : List ℕ) → Since fragments s
        → IsWhole s names payload → MakesUp fragments payload }
    ensures is_whole { (fragments : List FragmentValue) (s : Slot) (payload : List ℕ) → Since fragments s
        → MakesUp fragments payload → (names : Names) × IsWhole s names payload }
{}

/// A joiner that was given packets one after the other, with sweeps between them, carries of each SOURCE_IP,
/// SOURCE_PORT and DGM_ID exactly the fragments since their datagram began; and it reports what these and the packet's
/// own make up: Whole where they make up data, with these and their names, Waiting where they make up none, `Conflict`
/// where it doesn't agree with one of them, `TooLong` past 512 octets, and `Full` only where none is carried. The packet
/// is a fragment, and no earlier than the last packet or sweep. What packets leave unfinished is one thing.
pub fn a_joiner_carries_the_fragments_of_each_key()
    ensures carried { (count : ℕ) (puts : List Put) (j : JoinerValue) (place : ℕ) (s : Slot) → Run count puts j
        → slice_get j.slots place ≡ Some (Some s)
        → (fragments : List FragmentValue) × Leaves s.key puts j.last (since s.began fragments) × Since fragments s }
    ensures nothing { (count : ℕ) (puts : List Put) (j : JoinerValue) (key : Key) → Run count puts j
        → ((place : ℕ) (s : Slot) → slice_get j.slots place ≡ Some (Some s) → s.key ≢ key)
        → Leaves key puts j.last none }
    ensures told { (count : ℕ) (puts : List Put) (now : ℕ) (d : DgramValue) (f : FragmentValue) (outcome : JoinedValue)
        (old new : JoinerValue) → Run count puts old → old.last ≤ now → d.body ≡ fragment f → ¬ IsAlone f
        → Puts old now d outcome new
        → (u : Unfinished) × Leaves (key_of d) puts now u × Tells (fragments_in u) f outcome }
    ensures one { (key : Key) (puts : List Put) (now : ℕ) (u v : Unfinished)
        → Leaves key puts now u → Leaves key puts now v → u ≡ v }
{}

/// A packet does one thing to a joiner: what it leads to, and the joiner afterwards, are determined.
#[tactic(auto, using(crate::proofs::OnePut::one_put))]
pub fn a_packet_does_one_thing()
    ensures { (old : JoinerValue) (now : ℕ) (d : DgramValue) (j k : JoinedValue) (x y : JoinerValue)
        → Puts old now d j x → Puts old now d k y → (j ≡ k) × (x ≡ y) }
{}

/// Octets mean one thing for a node: what they lead to, what is sent, and the joiner afterwards, are determined.
#[tactic(auto, using(crate::proofs::OneAccept::one_accept))]
pub fn octets_mean_one_thing()
    ensures { (old : JoinerValue) (now : ℕ) (node : NodeValue) (own : Addr) (octets : List ℕ) → AreOctets octets
        → (u v : AcceptValue) (o p : List ℕ) (x y : JoinerValue)
        → Accepts old now node own octets u o x → Accepts old now node own octets v p y
        → (u ≡ v) × (o ≡ p) × (x ≡ y) }
{}
