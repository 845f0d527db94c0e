//! What holds of lists, whatever the code does: laws over the definitions alone.

ghost use Rattle.std.specs.Prelude.{ℕ, ◌<◌, ◌^◌, List};
ghost use Rattle.nbt_name.specs.Wire.{IsName, IsStar};
ghost use Rattle.nbt_text.specs.Lines.{words};
ghost use Rattle.nbt_text.specs.ScopedNames.{PrintsWord};
ghost use Rattle.nbt_front.specs.Files.{IsOfOne, SpellsLine};
ghost use Rattle.nbt_front.specs.declared.line.FixedLine.{FixedLine};
ghost use Rattle.nbt_lists.specs.Written.{entry_text};

/// What is written of a name with its kind and its address is read by the reader of fixed names as that.
pub fn what_is_written_is_read()
    ensures { (entry : FixedLine) (word : List ℕ) → IsName entry.name → ¬ IsStar entry.name → IsOfOne entry.addr → entry.addr < 2 ^ 32 → PrintsWord entry.name word
        → SpellsLine (words (entry_text word entry)) entry }
{
    nbt_text::laws::printed_scoped_name_is_read();
}
