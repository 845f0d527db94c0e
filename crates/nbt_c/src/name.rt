//! A name as C holds it.

ghost use Rattle.std.specs.Prelude.{◌≡◌, ◌≤◌, length, IfSome, IfNone};
ghost use Rattle.nbt_c.specs.Names.{filled_scope};

use nbt_name::{LentName, Name};

/// The most octets of a scope (RFC 1002 section 4.1).
const SCOPE_MOST: usize = 221;

/// A name as C holds it: 238 octets, of any alignment. A call that is given one tests it.
#[repr(C)]
#[derive(Drop)]
pub struct CName {
    /// The sixteen octets, the last of them mostly a service's number.
    pub octets: [u8; 16],
    /// How many octets of `scope` count, 0 to 221.
    pub scope_size: u8,
    /// The scope: its labels, each after its length octet, without the closing zero. The library fills it up with zeros.
    pub scope: [u8; 221],
}

impl CName {
    ghost use Rattle.std.specs.Prelude.{None};
    ghost use Rattle.nbt_c.specs.Events.{stored_if};
    ghost use Rattle.nbt_c.specs.Names.{HoldsName, name_in, stored};

    /// The name that is held, lent; `None` where `scope_size` is above 221, or the scope is no row of labels.
    pub(crate) fn lend(&self) -> Option<LentName<'_>>
        ensures read { IfSome result (λ name. HoldsName self.now × (name ≡ name_in self.now)) }
        ensures none { IfNone result (¬ HoldsName self.now) }
    {
        let size = usize::from(self.scope_size);
        if size > SCOPE_MOST {
            return None;
        }
        LentName::new(&self.octets, &self.scope[..size]).ok()
    }

    /// The same name, which borrows nothing.
    pub(crate) fn read(&self) -> Option<Name>
        ensures read { IfSome result (λ name. HoldsName self.now × (name ≡ name_in self.now)) }
        ensures none { IfNone result (¬ HoldsName self.now) }
    {
        let name = self.lend()?;
        Some(name.to_name())
    }

    /// Becomes this name; without one, zeros. It stands apart for its room on the stack.
    #[inline(never)]
    pub(crate) fn store(&mut self, name: &Option<LentName<'_>>)
        ensures { self.new ≡ stored_if name.now }
    {
        match name {
            Some(name) => self.fill(&name.to_name()),
            None => self.clear(),
        }
    }

    /// Becomes no name: zeros.
    fn clear(&mut self)
        ensures { self.new ≡ stored_if None }
    {
        self.octets = [0; 16];
        self.scope_size = 0;
        self.scope = [0; SCOPE_MOST];
    }

    /// The name for C.
    pub(crate) fn of(name: &Name) -> CName
        ensures { result ≡ stored name.now }
    {
        let mut stored = CName {
            octets: [0; 16],
            scope_size: 0,
            scope: [0; SCOPE_MOST],
        };
        stored.fill(name);
        stored
    }

    /// Becomes this name, where it stands.
    fn fill(&mut self, name: &Name)
        ensures { self.new ≡ stored name.now }
    {
        let labels = name.scope();
        self.octets = *name.octets();
        self.scope_size = labels.len() as u8;
        fill(labels, &mut self.scope);
    }
}

/// Puts the labels at the front of 221 octets, which zeros fill up.
fn fill(labels: &[u8], scope: &mut [u8; 221])
    requires { length labels.now ≤ 221 }
    ensures { scope.new ≡ filled_scope labels.now }
{
    *scope = [0; SCOPE_MOST];
    scope[..labels.len()].copy_from_slice(labels);
}
