//! What a lookup asks.

ghost use Rattle.std.specs.Prelude.{◌≡◌, OnOk, OnErr};
ghost use Rattle.std.specs.Result.{result_err};
ghost use Rattle.nbt_client.specs.Questions.{refusal_of, end_of, Begins};

use arrayvec::ArrayVec;
use nbt_lease::Moment;
use nbt_name::{Addr, Name};
use nbt_node::{LookupFault, Node};

/// What a lookup asks, and which host.
#[derive(Debug, Drop)]
pub enum Question {
    /// Who holds the name: asked of the name server at this address. A reply counts only from the node's own server (RFC
    /// 1002 section 4.2.12).
    Holders(Addr, Name),
    /// Which names the host at this address holds: asked by one of its names, or by `*` (RFC 1002 section 4.2.17).
    Names(Addr, Name),
}

/// The host that is asked.
pub(crate) fn end_of(question: &Question) -> Addr
    ensures { result ≡ end_of question.now }
{
    match question {
        Question::Holders(server, _) => *server,
        Question::Names(to, _) => *to,
    }
}

/// Opens the lookup at a node, with the request in `out`.
pub(crate) fn begin<const N: usize>(
    question: &Question,
    node: &mut Node<N>,
    now: Moment,
    out: &mut ArrayVec<u8, 576>,
) -> Result<(), LookupFault>
    ensures refused { result_err result ≡ refusal_of node.old now question.now }
    ensures ok { OnOk result (Begins node.old now question.now node.new out.new.items) }
    ensures err { OnErr result (node.new ≡ node.old) }
{
    match question {
        Question::Holders(_, name) => node.resolve(now, &name.lend(), out),
        Question::Names(to, name) => node.name_status(now, *to, &name.lend(), out),
    }
}
