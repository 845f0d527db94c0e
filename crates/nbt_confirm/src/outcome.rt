//! What comes of an answer (our profile).

ghost use Rattle.std.specs.Prelude.{◌≡◌};
ghost use Rattle.nbt_confirm.specs.Waiting as spec;

use crate::request::Awaits;

/// What the machine that was asked said of a request's addresses.
#[derive(Clone, Copy, Debug, PartialEq, Eq)]
pub enum Answer {
    /// Its response lists the address that the request is for, and the one that sent it.
    Listed,
    /// Its response doesn't list both.
    Unlisted,
    /// No response that counts came within three queries. A negative one doesn't count: the address may be another machine's by
    /// now (RFC 1002 section 4.2.14).
    Silent,
}

/// What is to be done with a request.
#[derive(Clone, Copy, Debug, PartialEq, Eq)]
pub enum Outcome {
    /// Its address is a further one of the holder's machine: it is put among the further addresses, and the reply is positive. It is
    /// asked itself next, unless it has answered before.
    Further,
    /// The reply is ACT_ERR (6): another machine has the name.
    Refuse,
    /// The holder is silent: the requester is asked next.
    AskRequester,
    /// The requester has the name at its address, though the lease is another's: it is sent one request to wait, and waits for the
    /// end of that lease.
    AwaitLeaseEnd,
    /// The name is granted by the server's rules, which may refuse it, and the reply goes out unasked.
    Grant,
    /// The same for the address that sent it; the one that it is for is not kept.
    GrantSource,
    /// The reply is RFS_ERR (5): the address isn't the sender's.
    NotOwn,
    /// Its address, which is a further one, has answered: it is listed from now on.
    Reached,
    /// There is no reply, and no lease.
    Nothing,
}

/// What is to be done with a request, by what it waits for and what was said of its addresses (our profile):
///
/// | It waits for | listed | not listed | silent |
/// |---|---|---|---|
/// | the holder | `Further` | `Refuse` | `AskRequester` |
/// | the requester | `AwaitLeaseEnd` | `Refuse` | `Refuse` |
/// | the requester, after the lease | `Grant` | `Nothing` | `Nothing` |
/// | the sender | `Grant` | `Nothing` | `Nothing` |
/// | the source | `GrantSource` | `NotOwn` | `NotOwn` |
/// | the further address itself | `Reached` | `Nothing` | `Nothing` |
/// | a lease's end | `Nothing` | `Nothing` | `Nothing` |
pub fn outcome_of(awaits: Awaits, answer: Answer) -> Outcome
    ensures { result ≡ spec.outcome_of awaits answer }
{
    match (awaits, answer) {
        (Awaits::Holder, Answer::Listed) => Outcome::Further,
        (Awaits::Holder, Answer::Unlisted) => Outcome::Refuse,
        (Awaits::Holder, Answer::Silent) => Outcome::AskRequester,
        (Awaits::Requester, Answer::Listed) => Outcome::AwaitLeaseEnd,
        (Awaits::Requester, _) => Outcome::Refuse,
        (Awaits::AfterLease, Answer::Listed) => Outcome::Grant,
        (Awaits::Sender, Answer::Listed) => Outcome::Grant,
        (Awaits::Source, Answer::Listed) => Outcome::GrantSource,
        (Awaits::Source, _) => Outcome::NotOwn,
        (Awaits::Reach, Answer::Listed) => Outcome::Reached,
        _ => Outcome::Nothing,
    }
}
