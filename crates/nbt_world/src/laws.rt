//! What holds of every world, whatever the code does: laws over the definitions alone.

ghost use Rattle.std.specs.Prelude.{◌≡◌, ◌≢◌, ℕ, ◌+◌, ◌*◌, ◌^◌, ◌<◌, ◌≤◌, max, suc, List, Option, Some, IsTrue, length};
ghost use Rattle.nbt_name.specs.Wire.{NameValue, IsStar};
ghost use Rattle.nbt_lease.specs.Config.{ConfigValue, IsConfig};
ghost use Rattle.nbt_lease.specs.Drift.{KeepsDriftBound, quiet};
ghost use Rattle.nbt_name.specs.declared.addr.Addr.{Addr};
ghost use Rattle.nbt_server.specs.Calls.{limited};
ghost use Rattle.nbt_server.specs.Serving.{ServerValue};
ghost use Rattle.nbt_node.specs.Node.{NodeValue};
ghost use Rattle.nbt_node.specs.Calls.{refreshing_soon};
ghost use Rattle.nbt_world.specs.World.{WorldValue, addr_of, node_of, with_server, with_node, AreAddrs, IsEnd, IsFresh};
ghost use Rattle.nbt_world.specs.Inner.Kept.{Invariant};
ghost use Rattle.nbt_world.specs.Inner.Facts.{LeasesAreSound, ClaimsAreCovered, ClaimsAreOfGroups, OpenIsFresh, RequestsHaveEnded};
ghost use Rattle.nbt_world.specs.Safety.{IsSafe, Run, RunsSafely, holding};
ghost use Rattle.nbt_world.specs.Clocks.{RunsByClocks};
ghost use Rattle.nbt_name.specs.declared.addr.Kind.{Kind};
ghost use Rattle.nbt_world.specs.declared.ends.Ends.{Ends};
ghost use Rattle.nbt_world.specs.Drift.{IsNotAhead, reading};
ghost use Rattle.nbt_world.specs.Inner.Handing.{Origin};
ghost use Rattle.nbt_world.specs.Step.{Step, TakenValue, EndTakes, after_taking};
ghost use Rattle.nbt_world.specs.Getting.{CanGet};
ghost use Rattle.nbt_world.specs.Shifted.{NodesDoAlike, ServersDoAlike};
ghost use Rattle.nbt_world.specs.Users.{LetsCallIn, ServesUsers, ServeUsersAsGroup, ServeUsersWhileKept, ServeUsersWhileTimely};
ghost use Rattle.nbt_world.specs.declared.event.Event.{Event};
ghost use Rattle.nbt_world.specs.declared.event.Event.TheVariants as event;
ghost use Rattle.nbt_world.specs.declared.event.Outcome.{Outcome};
ghost use Rattle.nbt_world.specs.declared.event.Outcome.TheVariants as outcome;

/// What follows from the facts that every world keeps: live leases are sound; where the readings kept the drift bound so far,
/// they were timely; and where they were timely so far, claims are covered by leases or by the silence, two claims on one name
/// are both of a group, what is open is fresh, old requests have ended, and no two nodes hold one name, unless both as a group.
pub fn facts_of_every_world()
    ensures sound { (world : WorldValue) → Invariant world → LeasesAreSound world }
    ensures timely { (world : WorldValue) → Invariant world → IsTrue world.kept → IsTrue world.timely }
    ensures covered { (world : WorldValue) → Invariant world → IsTrue world.timely → ClaimsAreCovered world }
    ensures beside { (world : WorldValue) → Invariant world → IsTrue world.timely → ClaimsAreOfGroups world }
    ensures fresh { (world : WorldValue) → Invariant world → IsTrue world.timely → (number : ℕ) (addr : Addr) (name : NameValue) → addr_of world.ends number ≡ Some addr → OpenIsFresh world number addr name }
    ensures ended { (world : WorldValue) → Invariant world → IsTrue world.timely → (number : ℕ) (addr : Addr) (name : NameValue) → addr_of world.ends number ≡ Some addr → RequestsHaveEnded world number addr name }
    ensures safe { (world : WorldValue) → Invariant world → IsTrue world.timely → IsSafe world }
{
    nbt_lease::laws::rest_outlasts_datagrams();
}

/// Every run that the model allows is safe while its readings are timely, and not only a run that `World::run` makes. A new world keeps
/// the facts, where its addresses are two to nine and distinct, and each step keeps them; so does whatever an end makes of octets that
/// come to it, in which of the ways in which they may (`takes`). So a run from a world that keeps them has all
/// that `World::run` promises: each world up to which the readings were timely is safe, and so is each up to which they kept the drift
/// bound. From a new world nothing else is asked, and `timely` and `kept` say exactly whether the readings were so.
pub fn every_run_is_safe()
    ensures fresh { (config : ConfigValue) (addrs : List Addr) (world : WorldValue)
        → AreAddrs addrs → IsFresh config addrs world → Invariant world }
    ensures step { (old new : WorldValue) (event : Event) (outcome : Outcome)
        → Invariant old → Step old event outcome new → Invariant new }
    ensures takes { (world : WorldValue) (number : ℕ) (from to : Addr) (octets : List ℕ) (taken : TakenValue) (ends : Ends)
        → Invariant world → addr_of world.ends number ≡ Some to → Origin world from to octets → EndTakes (reading world.now number) world.ends from octets number taken ends → Invariant (after_taking world ends to from taken) }
    ensures run { (events : List Event) (old new : WorldValue) (worlds : List WorldValue)
        → Invariant old → Run events old worlds new → RunsSafely old worlds new }
    ensures by_clocks { (events : List Event) (old new : WorldValue) (worlds : List WorldValue)
        → Invariant old → Run events old worlds new → RunsByClocks events old worlds new }
    ensures anew { (config : ConfigValue) (addrs : List Addr) (events : List Event) (old new : WorldValue) (worlds : List WorldValue)
        → AreAddrs addrs → IsFresh config addrs old → Run events old worlds new → RunsSafely old worlds new }
{
    nbt_packet::laws::one_message_spelled();
    nbt_lease::laws::leases_stay_sound();
    nbt_lease::laws::later_leases_live_now();
    nbt_lease::laws::one_name_changes();
    nbt_lease::laws::leases_of_others_stay();
    nbt_lease::laws::granted_lease_stands();
    nbt_lease::laws::hold_ends_first();
    nbt_lease::laws::rest_outlasts_datagrams();
}

/// The facts that every world keeps, from which its safety follows, speak neither of the id of a node's next request nor of when a
/// refresh is due. So a world keeps them too where a node of it counts its ids from another one, as a node does that is started by
/// `Node::start_from`, or has a name refreshed before its time, by `Node::refresh_soon`: neither is an event of a world.
pub fn ids_and_early_refreshes_keep_the_facts()
    ensures ids { (world : WorldValue) (index id : ℕ) (node : NodeValue) → Invariant world → node_of world.ends (suc index) ≡ Some node
        → Invariant (record world { ends = with_node world.ends (suc index) (Some (record node { next_id = id })) }) }
    ensures refresh { (world : WorldValue) (index : ℕ) (node : NodeValue) (name : NameValue) → Invariant world → node_of world.ends (suc index) ≡ Some node
        → Invariant (record world { ends = with_node world.ends (suc index) (Some (refreshing_soon node name)) }) }
{
    nbt_lease::laws::rest_outlasts_datagrams();
}

/// A world keeps its facts too where the server gives its clients a limit, or lifts it (`clients`), and where it has another number
/// of rows (`rows`): which leases live stays the same.
pub fn limits_keep_the_facts()
    ensures clients { (world : WorldValue) (server : ServerValue) (rows : Option ℕ) → Invariant world → world.ends.server ≡ Some server
        → Invariant (record world { ends = with_server world.ends (Some (limited rows server)) world.ends.crashed }) }
    ensures rows { (world : WorldValue) (server : ServerValue) (rows : ℕ) → Invariant world → world.ends.server ≡ Some server
        → Invariant (record world { ends = with_server world.ends (Some (record server { table = record server.table { config = record server.table.config { rows = rows } } })) world.ends.crashed }) }
{}

/// A node gets a free name as soon as its request and the reply arrive: where the name can be got, whatever worlds the three
/// events lead to, the node holds the name in the last, unless the server was out of memory for the request.
pub fn free_name_is_got()
    ensures { (a b c d : WorldValue) (number : ℕ) (name : NameValue) (kind : Kind) (ttl : ℕ) (o p q : Outcome) → Invariant a → CanGet a number name
        → Step a (event.Ask number name kind ttl) o b → Step b (event.Deliver (length a.sent)) p c → p ≢ outcome.Lost → Step c (event.Deliver (length a.sent + 1)) q d
        → holding d number name ≡ Some kind }
{
    nbt_packet::laws::one_message_spelled();
}

/// In a new world each name but `*` can be got, once the server and the node have started and then as many milliseconds have
/// passed as the server is silent for, and more than the node rests for.
pub fn new_world_can_get()
    ensures { (config : ConfigValue) (addrs : List Addr) (a b c d : WorldValue) (node ms : ℕ) (name : NameValue) (o p q : Outcome) → IsFresh config addrs a → IsConfig config → IsEnd a.ends (node + 1) → ¬ IsStar name
        → 1000 * config.longest ≤ ms → quiet config.life < ms → ms ≤ 2 ^ 60 → Step a (event.Start 0) o b → Step b (event.Start (node + 1)) p c → Step c (event.Tick ms) q d → CanGet d (node + 1) name }
{}

/// Calls and datagrams for a name go to nodes that hold it. So where two different nodes both let in a call to one name, or
/// are both handed a datagram up for it, or one does the one and one the other, each by its own reading at the world's time,
/// both hold it as a group: in each safe world; in each world that keeps its facts and in which the readings were timely so far;
/// and along a run in each world up to which they were timely, or kept the drift bound. A node that holds a name does let a call
/// in, at some listener.
pub fn users_of_a_name_meet_its_holder()
    ensures held { (world : WorldValue) (number : ℕ) (name : NameValue) → ServesUsers world number name → (kind : Kind) × (holding world number name ≡ Some kind) }
    ensures lets_in { (world : WorldValue) (number : ℕ) (name : NameValue) (kind : Kind) → holding world number name ≡ Some kind → LetsCallIn world number name }
    ensures safe { (world : WorldValue) → IsSafe world → ServeUsersAsGroup world }
    ensures timely { (world : WorldValue) → Invariant world → IsTrue world.timely → ServeUsersAsGroup world }
    ensures along { (old new : WorldValue) (worlds : List WorldValue) → RunsSafely old worlds new → ServeUsersWhileTimely worlds }
    ensures along_kept { (old new : WorldValue) (worlds : List WorldValue) → RunsSafely old worlds new → ServeUsersWhileKept worlds }
{
    nbt_session::laws::calls_go_to_held_names();
}

/// What the ends of a world do, they do by any clock that shows a constant more at each time, with all of their own times
/// greater by that constant: a node holds the same names, does the same at its events, and takes a datagram with the same
/// reply; a server starts and resumes so, and takes a datagram with the same reply. So an end whose clock begins anew at its
/// start does what a world's end does whose reading goes on.
pub fn ends_do_the_same_by_shifted_clocks()
    ensures nodes { (more now : ℕ) → NodesDoAlike more now }
    ensures servers { (more now : ℕ) → ServersDoAlike more now }
{
    nbt_node::laws::a_shifted_node_does_the_same();
    nbt_server::laws::a_shifted_server_does_the_same();
}

/// The drift bound lasts over a pause of a second or longer in which a clock moved by as much as the true one: if it was kept
/// from some time to the pause's beginning, and from the pause's end on, it is kept from that time on. So a clock of an end
/// that was down for so long can be followed by another one, which begins anew.
pub fn bound_lasts_over_a_pause()
    ensures { (true_then read_then true_now read_now pause true_later read_later : ℕ) → KeepsDriftBound true_then read_then true_now read_now
        → 1000 ≤ pause → KeepsDriftBound (true_now + pause) (read_now + pause) true_later read_later → KeepsDriftBound true_then read_then true_later read_later }
{}

/// A clock that isn't faster than the drift bound lets it be stays so over a pause in which it moved by no more than the true
/// one and its thousandth, less a millisecond: by a millisecond less for any pause, and by as much for one of a second or longer.
/// So a server that was down can be followed by one whose clock is behind it by any time.
pub fn not_ahead_lasts_over_a_pause()
    ensures { (true_then read_then true_now read_now pause moved true_later read_later : ℕ) → IsNotAhead true_then read_then true_now read_now
        → 1000 * moved + 1000 ≤ 1001 * pause → IsNotAhead (true_now + pause) (read_now + moved) true_later read_later → IsNotAhead true_then read_then true_later read_later }
{}

/// A clock stands, and another one begins in its place after a pause. From then on the place reads the greater of what the first
/// one read last and what the second one reads. If the second one begins below the first one's last reading and the pause
/// together, the place isn't ahead of any time that the first one wasn't ahead of. So the second one may begin at that reading
/// after a pause of a millisecond or longer, and anywhere below it after any pause or none. (At that reading and after no pause
/// the place can be a millisecond ahead.) Between two later times between which the second one isn't ahead, the place isn't
/// either, and it never goes back.
pub fn a_clock_that_stood_is_not_ahead()
    ensures stood { (true_then read_then true_now read_now pause from true_later read_later : ℕ) → IsNotAhead true_then read_then true_now read_now → from < read_now + pause
        → true_now + pause ≤ true_later → IsNotAhead (true_now + pause) from true_later read_later → IsNotAhead true_then read_then true_later (max read_now read_later) }
    ensures later { (read_now true_early read_early true_later read_later : ℕ) → true_early ≤ true_later → IsNotAhead true_early read_early true_later read_later
        → IsNotAhead true_early (max read_now read_early) true_later (max read_now read_later) }
    ensures onward { (read_now read_early read_later : ℕ) → read_early ≤ read_later → (read_now ≤ max read_now read_early) × (max read_now read_early ≤ max read_now read_later) }
{}
