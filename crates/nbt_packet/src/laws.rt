//! What holds of messages and their written forms, whatever the code does: laws over the definitions alone.

ghost use Rattle.std.specs.Prelude.{◌≡◌, ℕ, ◌≤◌, ◌⊎◌, List, ◌++◌, length};
ghost use Rattle.nbt_name.specs.Wire.{AreOctets};
ghost use Rattle.nbt_packet.specs.declared.fault.Fault.{Fault};
ghost use Rattle.nbt_packet.specs.Packet.{PacketValue, PacketIs, PacketFault};
ghost use Rattle.nbt_packet.specs.Message.{MessageValue, HoldsNumbers, Fits, MessageIs};
ghost use Rattle.nbt_packet.specs.Text.{text, size_of};
ghost use Rattle.nbt_packet.specs.Spelling.{Spells, HasFewRows};

/// Octets begin with a packet or have a packet's fault, only one of the two, and with one value (RFC 1002 section
/// 4.2.1).
pub fn one_packet_or_fault()
    ensures found { (octets : List ℕ) → AreOctets octets
        → ((packet : PacketValue) × (n : ℕ) × PacketIs octets packet n) ⊎ ((fault : Fault) × PacketFault octets fault) }
    ensures one_packet { (octets : List ℕ) (p q : PacketValue) (m n : ℕ)
        → PacketIs octets p m → PacketIs octets q n → (p ≡ q) × (m ≡ n) }
    ensures one_fault { (octets : List ℕ) (f g : Fault) → AreOctets octets
        → PacketFault octets f → PacketFault octets g → f ≡ g }
    ensures not_both { (octets : List ℕ) (packet : PacketValue) (n : ℕ) (fault : Fault) → AreOctets octets
        → PacketIs octets packet n → PacketFault octets fault → ⊥ }
{}

/// No packet meets two lines of the table of messages.
pub fn one_message()
    ensures { (p : PacketValue) (m n : MessageValue) → MessageIs p m → MessageIs p n → m ≡ n }
{}

/// No octets spell two messages.
pub fn one_message_spelled()
    ensures { (octets : List ℕ) (m n : MessageValue) → Spells octets m → Spells octets n → m ≡ n }
{}

/// The written form of each message that fits, followed by any octets, spells that message, and the packet takes the
/// written form's length.
pub fn written_form_is_read()
    ensures spells { (m : MessageValue) (rest : List ℕ) → HoldsNumbers m → Fits m → Spells (text m ++ rest) m }
    ensures whole { (m : MessageValue) (rest : List ℕ) → HoldsNumbers m → Fits m
        → (p : PacketValue) × PacketIs (text m ++ rest) p (length (text m)) × MessageIs p m }
{}

/// What is read can be written: a message that octets spell holds numbers in their ranges and a name, and fits.
pub fn spelled_message_fits()
    ensures { (octets : List ℕ) (m : MessageValue) → AreOctets octets → Spells octets m → HoldsNumbers m × Fits m }
{}

/// How long a written form is: so only `Found` and `Status` can be longer than the 576 octets of a datagram.
pub fn written_length()
    ensures { (m : MessageValue) → HoldsNumbers m → length (text m) ≡ size_of m }
{}

/// A message with as many entries as `entries_most` says of its name, or with 14 names of a node status, is written in at
/// most 576 octets.
pub fn few_rows_are_written()
    ensures { (m : MessageValue) → HoldsNumbers m → HasFewRows m → length (text m) ≤ 576 }
{}
