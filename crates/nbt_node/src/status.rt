//! The names that a status reply lists (RFC 1002 section 4.2.18).

ghost use Rattle.std.specs.Prelude.{◌≡◌, ◌+◌, ◌%◌, ◌≤◌, [], ◌++◌, length, Some};
ghost use Rattle.std.specs.List.{flat_map};
ghost use Rattle.nbt_packet.specs.Message.{status};
ghost use Rattle.nbt_packet.specs.Spelling.{AreWritten};
ghost use Rattle.nbt_node.specs.Node.{slots_most};
ghost use Rattle.nbt_node.specs.Datagrams.{listed};

use crate::state::Slot;
use arrayvec::ArrayVec;
use nbt_name::LentName;
use nbt_packet::{Message, status_name_octets, write};

/// The octets of the names that are held in the scope of the name that is asked for, in order of slots.
#[inline(never)]
fn list_all(slots: &[Option<Slot>], asked: &LentName<'_>, names: &mut ArrayVec<u8, 252>)
    requires slots { length slots.now ≤ slots_most }
    requires empty { names.old.items ≡ [] }
    ensures names { names.new.items ≡ flat_map (listed asked.now.scope) slots.now }
    ensures octets_at_most { length names.new.items ≤ 252 }
    ensures whole { length names.new.items % 18 ≡ 0 }
{
    for slot in slots {
        list(slot, asked, names);
    }
}

/// Lists the name of one slot, where it is held in that scope.
fn list(slot: &Option<Slot>, asked: &LentName<'_>, names: &mut ArrayVec<u8, 252>)
    requires room { length names.old.items ≤ 234 }
    ensures names { names.new.items ≡ names.old.items ++ listed asked.now.scope slot.now }
    ensures octets_at_most { length (listed asked.now.scope slot.now) ≤ 18 }
    ensures whole { length (listed asked.now.scope slot.now) % 18 ≡ 0 }
{
    let kept = match slot {
        Some(kept) => kept,
        None => return,
    };
    if !asked.has_scope_of(&kept.name) {
        return;
    }
    let kind = match kept.state.held_kind() {
        Some(kind) => kind,
        None => return,
    };
    let octets = status_name_octets(kept.name.octets(), kind);
    names.try_extend_from_slice(&octets).unwrap();
}

/// Leaves in `out` the reply that lists these names, and nothing else.
fn write_names(id: u16, name: &LentName<'_>, names: &[u8], out: &mut ArrayVec<u8, 576>)
    requires octets_at_most { length names.now ≤ 252 }
    requires whole { length names.now % 18 ≡ 0 }
    ensures { AreWritten (Some (status id name.now names.now)) out.new.items }
{
    let _is_a_name = name.octets();
    let reply = Message::Status {
        id,
        name: name.copy(),
        names,
    };
    write(&reply, out);
}

/// Leaves in `out` the reply that lists the names which are held in the scope of this one, and nothing else. It stands apart for its room
/// on the stack, which the question whether there is a reply doesn't take.
#[inline(never)]
pub fn write_listed(
    slots: &[Option<Slot>],
    id: u16,
    name: &LentName<'_>,
    out: &mut ArrayVec<u8, 576>,
)
    requires { length slots.now ≤ slots_most }
    ensures { AreWritten (Some (status id name.now (flat_map (listed name.now.scope) slots.now))) out.new.items }
{
    let mut names = ArrayVec::new();
    list_all(slots, name, &mut names);
    write_names(id, name, names.as_slice(), out);
}
