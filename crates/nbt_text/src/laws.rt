//! What holds of texts, whatever the code does: laws over the definitions alone.

ghost use Rattle.std.specs.Prelude.{◌≡◌, ℕ, List, [], length};
ghost use Rattle.nbt_name.specs.Wire.{AreOctets, NameValue, IsName};
ghost use Rattle.nbt_text.specs.declared.casing.Case.{Case};
ghost use Rattle.nbt_text.specs.declared.fault.Fault.{Fault};
ghost use Rattle.nbt_text.specs.NameText.{PrintsName, SpellsName};
ghost use Rattle.nbt_text.specs.ScopedNames.{PrintsWord, SpellsScopedName};
ghost use Rattle.nbt_text.specs.SuffixedNames.{SpellsOctets, Misspells, PrintsOctets};

/// What is printed of a name is read as that name.
pub fn printed_name_is_read()
    ensures { (name : NameValue) (text : List ℕ) → IsName name → PrintsName name text → SpellsName text name }
{}

/// A word spells one row of octets, or has one first fault, and not both.
pub fn one_reading()
    ensures one_spelled { (case : Case) (word a b : List ℕ) → SpellsOctets case word a → SpellsOctets case word b → a ≡ b }
    ensures one_fault { (word : List ℕ) (a b : Fault) → Misspells word a → Misspells word b → a ≡ b }
    ensures not_both { (case : Case) (word octets : List ℕ) (fault : Fault) → SpellsOctets case word octets → Misspells word fault → ⊥ }
{}

/// What is printed of sixteen octets is read as these octets, whether letters are folded or not.
pub fn printed_octets_are_read()
    ensures { (case : Case) (octets word : List ℕ) → length octets ≡ 16 → AreOctets octets → PrintsOctets octets word → SpellsOctets case word octets }
{}

/// What is printed of a name, with its scope behind it, is read as that name, whether letters are folded or not.
pub fn printed_scoped_name_is_read()
    ensures { (case : Case) (name : NameValue) (word : List ℕ) → IsName name → PrintsWord name word → SpellsScopedName case word [] name }
{}
