//! What watches a name server that stays up.

ghost use Rattle.std.specs.Prelude.{ℕ, List, Option};
ghost use Rattle.nbt_server.specs.Serving.{ServerValue};
ghost use Rattle.nbt_nbns.specs.declared.staying.Shown.{Shown};

use nbt_lease::Moment;
use nbt_log::{Entry, Health};
use nbt_server::Server;
use std::io::Write;

/// What is shown of a turn.
#[derive(Debug, PartialEq, Eq, Drop)]
pub struct Shown {
    /// What the server did with the datagram that came; `None` where none came, and where it was lost.
    pub entry: Option<Entry>,
    /// The moment after it.
    pub at: Moment,
    /// How the devices of the server are after it.
    pub health: Health,
}

/// What watches a server: it is shown what each turn was.
pub trait Watcher {
    /// What a showing is: the watcher before, the server, what is shown, what was printed before, the watcher afterwards, and what
    /// is printed then.
    ghost sees: { Self → ServerValue → Shown → Option (List ℕ) → Self → Option (List ℕ) → Type 0 };

    /// A turn was this. What is printed of it goes to `writer`, and what can't be done about it is said in `errors`.
    fn see<W: Write, E: Write>(
        &mut self,
        server: &Server,
        shown: &Shown,
        writer: &mut W,
        errors: &mut E,
    )
        ensures { sees self.old server.now shown.now (W.contents writer.old) self.new (W.contents writer.new) };
}
