//! What holds of pictures, whatever the code does: laws over the definitions alone.

ghost use Rattle.std.specs.Prelude.{ℕ, List, All};
ghost use Rattle.nbt_sim.specs.Escaping.{IsPrintable, Reads, written};

/// What is written of a text is read as that text, where every octet of it can be printed.
pub fn written_is_read()
    ensures { (text : List ℕ) → All IsPrintable text → Reads (written text) text }
{}
