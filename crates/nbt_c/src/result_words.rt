//! What each result of a call means, in words.

ghost use Rattle.std.specs.Prelude.{◌≡◌, ◌≤◌, ℕ, List, length};
ghost use Rattle.nbt_c.specs.Results.{ended};

use crate::results::{NO_KIND, NO_LEASE, NO_MOMENT, NO_NAME, NO_PLACE, NO_ROOM, NOTHING_DUE};

/// The words of a result, of a group of calls: by the header's number of the group, and the result's.
fn words_of(calls: u8, number: u8) -> &'static str
    ensures { length result.now ≤ 63 }
{
    match (calls, number) {
        (_, 0) => "done",
        // nbt_name_make, nbt_name_any
        (1, 1) => "the first octet is *",
        (1, 2) => "the scope has more than 221 octets",
        (1, 3) => "the scope is no row of labels",
        // nbt_name_read
        (2, 1) => "no character stands before the suffix",
        (2, 2) => "more than 15 characters stand before the suffix",
        (2, 3) => "an octet is no character from ! to ~",
        (2, 4) => "a suffix is #20 or <20>, with two hexadecimal digits",
        (2, 5) => "hex: stands before 32 hexadecimal digits",
        (2, 6) => "the scope can't be read",
        // nbt_name_from_wire, nbt_name_in_packet
        (3, 1) => "the octets end within the name",
        (3, 4) => "a pointer leads to no smaller place",
        (3, 5) => "the name is longer than 255 octets",
        // nbt_node_start, nbt_node_start_from, nbt_server_start
        (4, 1) => "the life is not 1 to 60,000 ms",
        (4, 2) => "the longest lease is not 1 to 1,000,000 s",
        (4, 3) => "the rows are not 1 to 4,096",
        // nbt_node_ask
        (5, 1) => "the name is being released, or rests",
        (5, 2) => "the name is being registered, or is held",
        (5, 3) => "no slot of the node is free",
        // nbt_node_release
        (6, 1) => "the name is not held",
        // nbt_node_resolve, nbt_node_name_status
        (7, 2) => "a lookup is open",
        // these, and nbt_node_on_datagram, nbt_node_poll, nbt_node_state
        (5 | 7, 5) => "the name begins with *",
        (5..=8, 4) => "the time is before that of an earlier call",
        // nbt_datagram_read, beside names
        (9, 1) => "the octets end within the datagram",
        (3 | 9, 2) => "no label begins with this octet",
        (3 | 9, 3) => "a letter of the sixteen octets is outside A to P",
        (9, 4) => "a pointer stands in a name",
        (9, 5) => "a name is longer than 255 octets",
        (9, 6) => "MSG_TYPE is none of the RFC's",
        (9, 7) => "a first fragment has a PACKET_OFFSET",
        (9, 8) => "the names end after what DGM_LENGTH counts",
        // nbt_datagram_split
        (10, 1) => "the data have more than 512 octets",
        // nbt_pieces_take
        (11, 1) => "no packet has this TYPE",
        (11, 2) => "a bit of FLAGS other than E is set",
        (11, 3) => "packets of the type don't have this LENGTH",
        (11, 4) => "a name of the request can't be read",
        // nbt_session_message
        (12, 1) => "the message has more than 131,071 octets",
        // nbt_server_on_datagram, nbt_server_lease, nbt_server_row
        (13, 1) => "the time is before that of an earlier datagram",
        (13, 2) => "there is no memory",
        // of any call
        (_, NO_NAME) => "a name is due, and the struct holds none",
        (_, NO_ROOM) => "the buffer is too small",
        (_, NO_MOMENT) => "the time is above 2^60 ms",
        (_, NO_KIND) => "the kind is none that the call takes",
        (_, NO_PLACE) => "the place is above the number of the octets",
        (_, NO_LEASE) => "there are no more leases",
        (_, NOTHING_DUE) => "nothing is due",
        _ => "no such result",
    }
}

/// What a result means, in at most 63 octets of ASCII, and zeros behind them: `calls` says whose it is, by the header's numbers of
/// groups of calls, 1 to 13; of any other it is one that any call may return. Of no result that the calls return: `no such result`.
/// `tests/c/results.txt` has all of these words.
#[unsafe(no_mangle)]
pub extern "C" fn nbt_result_text(calls: u8, number: u8, out: &mut [u8; 64])
    ensures { (words : List ℕ) × (length words ≤ 63) × (out.new ≡ ended words) }
{
    put_ended(words_of(calls, number).as_bytes(), out);
}

/// Puts words at the front of 64 octets, and zeros behind them.
fn put_ended(words: &[u8], out: &mut [u8; 64])
    requires { length words.now ≤ 63 }
    ensures { out.new ≡ ended words.now }
{
    *out = [0; 64];
    out[..words.len()].copy_from_slice(words);
}
