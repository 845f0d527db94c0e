//! What holds of names and wire forms, whatever the code does: laws over the definitions alone.

ghost use Rattle.std.specs.Prelude.{◌≡◌, ℕ, ◌+◌, ◌≤◌, ◌⊎◌, List, ◌++◌, length, ◌<◌, slice_get, slice_range, Some};
ghost use Rattle.nbt_name.specs.declared.fault.NameFault.{NameFault};
ghost use Rattle.nbt_name.specs.declared.form.Form.{Form};
ghost use Rattle.nbt_name.specs.Wire.{NameValue, IsName, AreOctets, wire};
ghost use Rattle.nbt_name.specs.Reading.{target, Stands, Fails, NameAt, PlainNameAt};

/// At each place stands a name or a fault, only one of the two, and with one value: whether pointers are followed or
/// not (RFC 1002 section 4.1).
pub fn one_name_or_fault()
    ensures found { (form : Form) (octets : List ℕ) (place : ℕ) → AreOctets octets
        → ((name : NameValue) × (next : ℕ) × Stands form octets place name next)
        ⊎ ((fault : NameFault) × Fails form octets place fault) }
    ensures one_name { (form : Form) (octets : List ℕ) (place : ℕ) (a b : NameValue) (x y : ℕ)
        → Stands form octets place a x → Stands form octets place b y → (a ≡ b) × (x ≡ y) }
    ensures one_fault { (form : Form) (octets : List ℕ) (place : ℕ) (f g : NameFault)
        → Fails form octets place f → Fails form octets place g → f ≡ g }
    ensures not_both { (form : Form) (octets : List ℕ) (place : ℕ) (name : NameValue) (next : ℕ) (fault : NameFault)
        → Stands form octets place name next → Fails form octets place fault → ⊥ }
{}

/// A name's wire form, wherever it stands and whatever follows it, is read as that name, and takes its own length.
pub fn wire_form_is_read()
    ensures { (name : NameValue) (front rest : List ℕ) → IsName name
        → PlainNameAt (front ++ wire name ++ rest) (length front) name (length front + length (wire name)) }
{}

/// Where a plain name stands, its octets are its wire form: a name is spelled in one way without pointers.
pub fn plain_name_is_its_wire_form()
    ensures octets { (octets : List ℕ) (place : ℕ) (name : NameValue) (next : ℕ) → PlainNameAt octets place name next
        → slice_range octets place next ≡ wire name }
    ensures length { (octets : List ℕ) (place : ℕ) (name : NameValue) (next : ℕ) → PlainNameAt octets place name next
        → next ≡ place + length (wire name) }
{}

/// No wire form begins another: octets that begin with two are one name's, and the same octets follow.
pub fn no_wire_form_begins_another()
    ensures { (a b : NameValue) (x y : List ℕ) → IsName a → IsName b → wire a ++ x ≡ wire b ++ y → (a ≡ b) × (x ≡ y) }
{}

/// A plain name is read in the same way where pointers may be followed.
pub fn plain_name_is_a_name()
    ensures { (octets : List ℕ) (place : ℕ) (name : NameValue) (next : ℕ)
        → PlainNameAt octets place name next → NameAt octets place name next }
{}

/// A pointer to a smaller place stands for the name there, and takes two octets.
pub fn pointer_is_the_name_it_leads_to()
    ensures { (octets : List ℕ) (place high low : ℕ) (name : NameValue) (next : ℕ)
        → slice_get octets place ≡ Some high → 0xC0 ≤ high → slice_get octets (place + 1) ≡ Some low
        → target high low < place → NameAt octets (target high low) name next → NameAt octets place name (place + 2) }
{}
