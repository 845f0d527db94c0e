//! What holds of the server's rules, whatever the code does: laws over the definitions alone.

ghost use Rattle.std.specs.Prelude.{ℕ, List};
ghost use Rattle.nbt_server.specs.OneAnswer.{OneReply};
ghost use Rattle.nbt_server.specs.Serving.{ServerValue};
ghost use Rattle.nbt_server.specs.Shifted.{StartsAlike, TellsAlike, DoesAlike};

/// If the leases are sound, octets from one address at one time have one reply, and leave the same leases.
pub fn one_reply()
    ensures { OneReply }
{
    nbt_packet::laws::one_message_spelled();
    nbt_lease::laws::one_case_stands();
}

/// A server whose clock shows a constant more at each time does the same, with each of its times greater by that constant: it
/// starts so; the same leases live, with their expiries shifted; and each datagram is replied to with the same message, a
/// query with the same seconds left, and the same is reported of it. So nothing that a server does depends on when its clock
/// began.
pub fn a_shifted_server_does_the_same()
    ensures start { (more : ℕ) → StartsAlike more }
    ensures telling { (more : ℕ) (server : ServerValue) (now : ℕ) → TellsAlike more server now }
    ensures doing { (more : ℕ) (old : ServerValue) (now ip : ℕ) (octets : List ℕ) (new : ServerValue) → DoesAlike more old now ip octets new }
{}
