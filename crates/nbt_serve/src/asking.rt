//! Which name a datagram was about, by what the server did.

ghost use Rattle.std.specs.Prelude.{◌≡◌, Some, None, IfSome, IfNone};
ghost use Rattle.nbt_serve.specs.Changing.{name_of};
ghost use Rattle.nbt_serve.specs.Inner.Passing.{name_in_any, query_in, query_of};

use nbt_log::Entry;
use nbt_name::Name;
use nbt_server::Outcome;

/// The name that it was about, if there is one.
pub(crate) fn name_in(entry: &Option<Entry>) -> Option<Name>
    ensures { result ≡ name_in_any entry.now }
{
    match entry {
        Some(entry) => name_of(&entry.outcome),
        None => None,
    }
}

/// The name for which a query asked that was answered.
pub(crate) fn query_in(entry: &Option<Entry>) -> Option<&Name>
    ensures found { IfSome result (λ name. query_in entry.now ≡ Some name.now) }
    ensures none { IfNone result (query_in entry.now ≡ None) }
{
    match entry {
        Some(entry) => query_of(&entry.outcome),
        None => None,
    }
}

/// The name that a request was about which was answered.
fn name_of(outcome: &Outcome) -> Option<Name>
    ensures { result ≡ name_of outcome.now }
{
    match outcome {
        Outcome::Granted(claim, _)
        | Outcome::Renewed(claim, _)
        | Outcome::Refused(claim, _)
        | Outcome::Released(claim)
        | Outcome::NotLeased(claim)
        | Outcome::NotReleased(claim, _) => Some(claim.name.copy()),
        Outcome::Found(name) | Outcome::NotFound(name) => Some(name.copy()),
        Outcome::Silent(_) | Outcome::ForNodes | Outcome::NoMessage => None,
    }
}

/// The name for which a query asked that was answered.
fn query_of(outcome: &Outcome) -> Option<&Name>
    ensures found { IfSome result (λ name. query_of outcome.now ≡ Some name.now) }
    ensures none { IfNone result (query_of outcome.now ≡ None) }
{
    match outcome {
        Outcome::Found(name) | Outcome::NotFound(name) => Some(name),
        _ => None,
    }
}
