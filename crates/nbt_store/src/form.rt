//! Which form a file has.

ghost use Rattle.std.specs.Prelude.{◌≡◌, ◌↔◌, IsTrue, Some};
ghost use Rattle.nbt_store.specs.Forms.{chained, version};

/// Which form a file has, as its first line says it.
#[derive(Clone, Copy, Debug, PartialEq, Eq)]
pub enum Form {
    /// Version 2: the changes have no times, and each line has a checksum of its own. It is read, and no more written.
    Two,
    /// Version 3: each change has its time, and the checksum of a line goes on from that of the line before.
    Three,
}

/// The first line of version 2 (our profile).
const VERSION_TWO: &[u8] = b"nbt leases, version 2";

/// The first line of version 3 (our profile).
const VERSION_THREE: &[u8] = b"nbt leases, version 3";

impl Form {
    /// The form whose version a line is.
    pub(crate) fn of_line(line: &[u8]) -> Option<Form>
        ensures { (form : Form) → (result ≡ Some form) ↔ (line.now ≡ version form) }
    {
        if Form::Two.is_first(line) {
            return Some(Form::Two);
        }
        if Form::Three.is_first(line) {
            return Some(Form::Three);
        }
        None
    }

    /// Whether a line is the first one of this form.
    fn is_first(self, line: &[u8]) -> bool
        ensures { IsTrue result ↔ (line.now ≡ version self) }
    {
        match self {
            Form::Two => line == VERSION_TWO,
            Form::Three => line == VERSION_THREE,
        }
    }

    /// From which checksum that of a line goes on, where this is the one of the line before.
    pub(crate) fn chained(self, sum: u32) -> u32
        ensures { result ≡ chained self sum }
    {
        match self {
            Form::Two => 0,
            Form::Three => sum,
        }
    }
}
