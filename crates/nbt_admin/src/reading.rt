//! Reads texts of arguments, one after the other.

ghost use Rattle.std.specs.Prelude.{Ok, Err, IfOk, IfErr};
ghost use Rattle.nbt_admin.specs.Reading.{Each};

use crate::failure::Failure;
use std::alloc::Global;

/// How each of several texts is read.
pub(crate) trait ReadEach<'a> {
    ghost use Rattle.std.specs.Prelude.{ℕ, List, Result};
    ghost use Rattle.std.specs.Borrow.{Bor};
    ghost use Rattle.nbt_admin.specs.declared.failure.Failure.{Failure};

    /// What a text is read as.
    type Value: Drop;

    ghost reads: { Self → List Self.Value → Bor (List ℕ) → Result Self.Value Failure → Type 0 };

    /// Reads a text, beside the values of those before it.
    fn read(
        &self,
        alloc: Global,
        before: &[Self::Value],
        text: &'a str,
    ) -> Result<Self::Value, Failure>
        ensures { reads self.now before.now text.entry result };
}

/// Reads texts in their order, after these values. The first that is refused ends it.
pub(crate) fn read_each<'a, R: ReadEach<'a>>(
    alloc: Global,
    reader: &R,
    before: Vec<R::Value>,
    texts: &[&'a str],
) -> Result<Vec<R::Value>, Failure>
    ensures read { IfOk result (λ values. Each (R.reads reader.now) before.items texts.now (Ok values.items)) }
    ensures failure { IfErr result (λ failure. Each (R.reads reader.now) before.items texts.now (Err failure)) }
{
    let mut values = before;
    for text in texts {
        let value = reader.read(alloc, values.as_slice(), *text)?;
        values.push(value)?;
    }
    Ok(values)
}
