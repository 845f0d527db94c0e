//! What holds of turns, of Samba's registrations, and of a server and what is kept of its leases, whatever the code does: laws over the
//! definitions alone.

ghost use Rattle.std.specs.Prelude.{◌≡◌, ◌≢◌, ℕ, List, ◌++◌, slice_index, length, ◌≤◌, filter};
ghost use Rattle.nbt_name.specs.declared.addr.Kind.TheVariants.{Group};
ghost use Rattle.nbt_packet.specs.declared.message.Registration.{Registration};
ghost use Rattle.nbt_packet.specs.Message.{IsRegistration, registration, overwrite};
ghost use Rattle.nbt_packet.specs.Text.{text, claim_octets};
ghost use Rattle.nbt_serve.specs.OneAnswer.{OneServerTurn};
ghost use Rattle.nbt_serve.specs.Samba.{as_registration, IsTaken};
ghost use Rattle.nbt_serve.specs.SambaPort.{OthersComeAsTheyAre, WrittenComeAsTheyAre};
ghost use Rattle.nbt_name.specs.Wire.{NameValue};
ghost use Rattle.nbt_lease.specs.Lease.{Leases, Rows, is_live, leases_at};
ghost use Rattle.nbt_server.specs.Serving.{ServerValue};
ghost use Rattle.nbt_server.specs.Calls.{ServerResumes, kept_server, limited};
ghost use Rattle.nbt_store.specs.Changes.{after_all, begun_all, no_leases};
ghost use Rattle.nbt_serve.specs.Changing.{IsKept};
ghost use Rattle.nbt_serve.specs.Waiting.{batch};
ghost use Rattle.nbt_serve.specs.Turning.{reach};
ghost use Rattle.nbt_serve.specs.Runs.{live_rows, NoReplyPrecedesItsChange, CrashLeavesAnEarlierServer, ServersGoByTurns};

use crate::waiting::{BATCH, REACH};

/// Octets are taken for one registration.
pub fn one_registration()
    ensures { (octets : List ℕ) (r s : Registration) → IsTaken octets r → IsTaken octets s → r ≡ s }
{
    nbt_packet::laws::one_message_spelled();
}

/// The written form of a registration (RFC 1002 section 4.2.2) is what becomes of it with OPCODE 15, and of a group's with
/// RD clear, whatever follows.
pub fn written_forms_are_taken()
    ensures by_opcode { (r : Registration) (rest : List ℕ) → IsRegistration r
        → IsTaken (claim_octets 0x7900 r ++ rest) r × (as_registration (claim_octets 0x7900 r ++ rest) ≡ text (registration r) ++ rest) }
    ensures by_group { (r : Registration) (rest : List ℕ) → IsRegistration r → r.kind ≡ Group
        → IsTaken (text (overwrite r) ++ rest) r × (as_registration (text (overwrite r) ++ rest) ≡ text (registration r) ++ rest) }
{
    nbt_packet::laws::written_form_is_read();
}

/// What spells any message but an overwrite of a group comes through the port for Samba's requests as it is. So a registration, a
/// refresh, a release or a query of a node of ours does, whatever octets follow its text: a node sends no overwrite (our profile).
pub fn other_messages_come_as_they_are()
    ensures spelled { OthersComeAsTheyAre }
    ensures written { WrittenComeAsTheyAre }
{
    nbt_packet::laws::one_message_spelled();
    nbt_packet::laws::written_form_is_read();
}

/// Of sound leases, what a server takes in a turn has one reply, and leaves the same leases.
pub fn one_turn()
    ensures { OneServerTurn }
{
    nbt_server::laws::one_reply();
}

/// A server that crashed may resume with any rows that have what lives of its kept leases, with its own start and limits, once
/// its clock reads no less than at its last datagram: the server made of them, with its limit of clients again, is one that it
/// resumes as.
pub fn what_is_kept_resumes()
    ensures { (was server : ServerValue) (kept : Leases) (rows : Rows) (last now : ℕ) → IsKept kept was → was.last ≤ now → ((name : NameValue) → leases_at now rows name ≡ filter (is_live now) (kept name))
        → ServerResumes (kept_server was.table.config was.start last rows) now server → ServerResumes was now (limited was.client_rows server) }
{}

/// Whenever a reply of a run is sent, all changes that were appended before are durable: so is what the reply says.
pub fn no_reply_precedes_its_change()
    ensures { NoReplyPrecedesItsChange }
{}

/// Whatever a crash leaves of what was kept, after any call of a run or within one that failed, has the live leases of an earlier
/// server, and that one knows of each reply that has left. So the world's event of a server that resumes covers it: the datagrams
/// behind are lost. The time of that server isn't more than 1,000 ms past the last time of what is left, of LAST and of the lines: a
/// start that goes on a second past that one meets the premise `was.last ≤ now` of [`what_is_kept_resumes`]. Each lease that a line moves or
/// releases is there by the lines before, so no such line is damage.
pub fn a_crash_leaves_an_earlier_server()
    ensures { CrashLeavesAnEarlierServer }
{}

/// The servers of a run go by the turns of a server without a store. So all that holds of those holds of these.
pub fn servers_go_by_turns()
    ensures { ServersGoByTurns }
{}

/// Where a server's live leases are written in place of all that was kept, at any time, its leases are kept.
pub fn what_is_written_is_kept()
    ensures { (server : ServerValue) (kept : Leases) (at : ℕ) → IsKept kept server → IsKept (after_all (begun_all at (live_rows server)) no_leases) server }
{}

/// At 64 replies that wait they leave, and no datagram is handled more than 1,000 ms past the last durable time (our profile).
pub fn numbers()
    ensures { (BATCH ≡ batch) × (REACH ≡ reach) }
{}
