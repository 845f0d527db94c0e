//! A network of the programs' own acts leads to a world; and what a server is after a crash and a start, and what its clock reads: each
//! law is the contract of a function that does nothing.

ghost use Rattle.std.specs.Prelude.{◌≡◌, ◌≢◌, ℕ, ◌+◌, ◌≤◌, ◌↔◌, Bool, List, [], ◌++◌, Option, Some, None, IsTrue};
ghost use Rattle.nbt_name.specs.declared.addr.Addr.{Addr};
ghost use Rattle.nbt_lease.specs.Config.{ConfigValue};
ghost use Rattle.nbt_node.specs.Node.{NodeValue};
ghost use Rattle.nbt_front.specs.FrontPort.{Fronted, FrontDoes};
ghost use Rattle.nbt_port.specs.PortCalls.{PortCall, Chain};
ghost use Rattle.nbt_serve.specs.SambaPort.{HandsOn};
ghost use Rattle.nbt_serve.specs.Turning.{Keeping};
ghost use Rattle.nbt_server.specs.Calls.{ServerResumes};
ghost use Rattle.nbt_server.specs.Serving.{ServerValue};
ghost use Rattle.nbt_server.specs.Shifted.{shifted_server};
ghost use Rattle.nbt_store.specs.Silence.{by_new_clock, unseen};
ghost use Rattle.nbt_store.specs.declared.header.Header.{Header};
ghost use Rattle.nbt_store.specs.declared.silence.Seen.{Seen};
ghost use Rattle.nbt_store.specs.declared.times.Times.{Times};
ghost use Rattle.nbt_world.specs.Drift.{IsNotAhead};
ghost use Rattle.nbt_world.specs.Safety.{AreTimely, KeepDriftBound};
ghost use Rattle.nbt_world.specs.Shifted.{shifted_server_end};
ghost use Rattle.nbt_world.specs.Step.{Resumes};
ghost use Rattle.nbt_world.specs.World.{WorldValue, AreAddrs, with_server};
ghost use Rattle.nbt_world.specs.declared.ends.Ends.{Ends};
ghost use Rattle.nbt_net.specs.Addresses.{IsAsWithOne, IsAsWithSeveral, IsServers, NetworkOfSeveralAddresses, as_first};
ghost use Rattle.nbt_net.specs.Again.{FirstStart, NextStart, StartBeginsARun};
ghost use Rattle.nbt_net.specs.Clocks.{counted, place_reads};
ghost use Rattle.nbt_net.specs.Devices.{Call, Story, no_story, AreActs, IsCutAt};
ghost use Rattle.nbt_net.specs.Fronts.{AreThrough};
ghost use Rattle.nbt_net.specs.Getting.{NetworkGets, NewNetworkGets, RequestGets};
ghost use Rattle.nbt_net.specs.Headers.{CrashLeavesTheFile, CrashLeavesTheHeader, CrashWithinAnOpening, DiskNextStart, FileNextStart, OpeningNextStart, StartFindsLeft};
ghost use Rattle.nbt_net.specs.Hosting.{HostsAreLived, FailedHostsAreLived, HostsHereAreLived, FailedHostsHereAreLived};
ghost use Rattle.nbt_net.specs.Hosts.{HostLives};
ghost use Rattle.nbt_net.specs.Lives.{Network, NetworkIsARun, NoTwoHold};
ghost use Rattle.nbt_net.specs.Reaching.{HostsActIsARun, ServersActIsARun};
ghost use Rattle.nbt_net.specs.Restarts.{HostsLiveLater, LivesLater, RestartGoesOn};
ghost use Rattle.nbt_net.specs.Servers.{ServerEnd, ServerLives, with_rows};
ghost use Rattle.nbt_net.specs.Starts.{StartResumesAnEarlierServer};
ghost use Rattle.nbt_net.specs.Turns.{BrokenTurnsAreLived, CrashCutsALifeShort, HostTurnsAreLived, HostsLiveOn, ServerRunsAreLived, ServerTurnsAreLived};
ghost use Rattle.nbt_net.specs.Wire.{Comes, Happening};
ghost use Rattle.nbt_net.specs.BareWorking.{Bare, BareStarts, BareWorkIsLived, IsBareAtWork};
ghost use Rattle.nbt_net.specs.Working.{HasWorked, HaveAnyPair, PutsFront, WorkIsLived};

use nbt_host::Watch;
use nbt_port::{Clock, Port};
use nbt_store::{Disk, Store};

/// What a server does at one reading of its clock leads a world on, with what its port sends: it starts, resumes, gets another limit of clients or another number of rows, takes a turn or fails in it, or crashes.
pub fn a_servers_act_is_a_run()
    ensures { ServersActIsARun }
{}

/// So does what a host does at one reading of its clock, where the world keeps its facts (`Invariant`): it starts, requests a name or gives it back, polls, hears and replies, fails at one of these, or crashes. What it answers to a query moves no name, and the world has nothing of it.
pub fn a_hosts_act_is_a_run()
    ensures { HostsActIsARun }
{
    nbt_world::laws::every_run_is_safe();
}

/// A host's turn is acts of its life, at the looks at its clocks, with the calls of its port; so is a turn in which the device fails, and
/// so are turns one after the other. Where the machine slept the host crashes and starts at that look, and nothing is made of what it received right before it: of the calls only such
/// receives are left out. It is a premise that the host has 14 slots.
pub fn a_hosts_turn_is_lived()
    ensures turn { HostTurnsAreLived }
    ensures broken { BrokenTurnsAreLived }
    ensures on { HostsLiveOn }
{}

/// A server's turns are acts of its life, each at its moment; and so are those of a run of a server that keeps its leases, whichever way it ends.
pub fn a_servers_turns_are_lived()
    ensures turns { ServerTurnsAreLived }
    ensures runs { ServerRunsAreLived }
{
    nbt_serve::laws::servers_go_by_turns();
}

/// What the contract of [`nbt_host::host_over`] says of a host with one server is a life of it, from its first call to its last: until its time is over and its
/// names are given back (`ok`), or until it ends early (`failed`). It leads from the port and the clocks that it was given to those that it had at last, and to the node that it had then. So it is of the port and the clocks of
/// [`nbt_host::run_host`] (`here`, `here_failed`). All that its port and its clocks did stands in one order. At each
/// reading of the clocks stand the acts at that time: what came right before it is handled at it, and what is sent leaves before one that reads a later time.
pub fn a_whole_host_is_lived<P: Port, K: Clock + Watch>()
    ensures ok { HostsAreLived P.does K.tells K.looks }
    ensures failed { FailedHostsAreLived P.does K.tells K.looks }
    ensures here { HostsHereAreLived }
    ensures here_failed { FailedHostsHereAreLived }
{}

/// Whatever a server does with its devices, one thing after another in any order, is a life of it, call by call: turns, also those in which its port
/// fails, readings of its clock, looks at its file, and other fronts that take the place of its own between two calls. It goes on, or its store failed
/// at last (`kept`); its port's and its store's calls are then those of a run of a server that keeps its leases. It is a premise that no reply waits at first. A reply
/// leaves only where its clock, as it was read last, reads no more than LIFE past the reading of its request, or never. Where its file is looked after with headers of its own alone, as those with
/// one start, each new file is begun with one of them. Without a state (`bare`) it lives from its start on, and a reply leaves before its clock reads a later time.
pub fn a_server_at_work_is_lived<P: Port, S: Store, C: Clock, D: Clock>()
    ensures kept { (own : Header → Bool) (old new : Keeping (Fronted P) S C) → HaveAnyPair (λ header. IsTrue (own header)) → old.waiting.replies ≡ [] → HasWorked (FrontDoes P.does) PutsFront S.does C.tells D.tells (λ header. IsTrue (own header)) old new
        → WorkIsLived (FrontDoes P.does) PutsFront S.does C.tells (λ header. IsTrue (own header)) old.server.table.config old new }
    ensures bare { (config : ConfigValue) (boot : C) (first new : Bare (Fronted P) C) → BareStarts C.tells config boot first → IsBareAtWork (FrontDoes P.does) PutsFront C.tells first new
        → BareWorkIsLived (FrontDoes P.does) PutsFront C.tells config boot first new }
{}

/// Cut off behind any call of its devices, such a life is one so far: of the same acts, the first of them.
pub fn a_life_may_be_cut_at_any_call()
    ensures server { (config : ConfigValue) (slack : ℕ) (old new : ServerEnd) (calls : List Call) (story : Story) → Chain (ServerLives config) old story.acts new → AreActs slack no_story calls story
        → (before behind : List Call) → calls ≡ before ++ behind → IsCutAt (ServerLives config) slack old before story }
    ensures host { (config : ConfigValue) (server at : Addr) (slack : ℕ) (old new : Option NodeValue) (calls : List Call) (story : Story) → Chain (HostLives config server at) old story.acts new → AreActs slack no_story calls story
        → (before behind : List Call) → calls ≡ before ++ behind → IsCutAt (HostLives config server at) slack old before story }
{}

/// Whatever a crash leaves of a server that keeps its leases, after any call of its devices or within one that failed, is of a life that
/// was cut short there. Each reply that has left was sent in that life; what else came is lost.
pub fn a_crash_cuts_a_life_short()
    ensures { CrashCutsALifeShort }
{
    nbt_serve::laws::a_crash_leaves_an_earlier_server();
}

/// By a clock that shows a constant more at each time, a host lives the same life, and calls its port alike, with each of its times so much later. A
/// host starts and knows nothing. So each of its lives may be judged by a clock that differs by a constant of its own, as where its machine's
/// clock began anew at a boot.
pub fn a_host_lives_the_same_by_a_shifted_clock()
    ensures { HostsLiveLater }
{
    nbt_node::laws::a_shifted_node_does_the_same();
}

/// By such a clock a server lives the same life too. So its life goes on over a crash and a start that finds what it left, and goes on, by the clock of that start: by that clock the
/// server resumes with the leases that it had, its number of rows may be another one, and what the crash cut off is no part of its life. It has the earlier server's limit
/// of clients. Where the file's own clock goes on, it is a premise that it hasn't gone back (`HasNotGoneBack`). [`a_server_lives_over_any_number_of_crashes`] says it of any number.
pub fn a_life_goes_on_after_a_restart()
    ensures later { LivesLater }
    ensures restart { RestartGoesOn }
{
    nbt_server::laws::a_shifted_server_does_the_same();
    a_start_resumes_an_earlier_server();
}

/// What comes to a server behind a front, over a port that takes the registrations of Samba's programs (`samba`) or one that is strict
/// (`strict`), may come to it: where nothing that comes from an end's address is taken for such a registration, and what comes there else may come to any end. What is
/// sent beneath the front is sent by the server, or moves no name, or confirms a fixed name to one of its own addresses. So where no fixed name lists an end's address,
/// nothing of the front moves a name of an end: it is as what another program sends there.
pub fn a_front_moves_no_name_of_an_end<P: Port>()
    ensures samba { (calls : List PortCall) (old new : Fronted P) → Chain (FrontDoes (HandsOn P.does)) old calls new → AreThrough P.does old calls new }
    ensures strict { (calls : List PortCall) (old new : Fronted P) → Chain (FrontDoes P.does) old calls new → AreThrough P.does old calls new }
{}

/// However a server that keeps its leases begins, a run begins with a file of its live leases alone, and its header has its limits, its start and the
/// time that its clock read (`begins`). So it lives over any number of crashes, each at or within any call of its devices: what holds of a first
/// start, which begins anew (`first`), holds of the next one (`next`), which goes on with what the crash left or begins anew, and so of each behind it. Each start may
/// have a number of rows of its own; all have one life and one longest lease. It is a premise that a start that goes on finds what was left
/// (`FindsLeft`). Where the file's own clock goes on, it is a premise that it hasn't gone back (`HasNotGoneBack`).
pub fn a_server_lives_over_any_number_of_crashes()
    ensures begins { StartBeginsARun }
    ensures first { FirstStart }
    ensures next { NextStart }
{
    nbt_serve::laws::a_crash_leaves_an_earlier_server();
    nbt_serve::laws::what_is_kept_resumes();
    nbt_serve::laws::what_is_written_is_kept();
    nbt_store::laws::a_file_has_one_reading();
    nbt_store::laws::a_new_clock_begins_at_the_last_time();
    nbt_server::laws::a_shifted_server_does_the_same();
}

/// Whatever a crash leaves of a file, by the premise on disks, after it was written anew with a header and leases and calls of a store went on
/// from it, is a file with the header that goes with its changes: the one with which it was written, or that of the last new file that took its
/// place; or, within the call at which one does, either of the two. All calls went well, but maybe the last, at or within which the crash came
/// (`left`). Within the opening of a store a crash leaves what one before it leaves, or the whole new file, of which `left` speaks where no call came
/// since (`opening`).
pub fn a_crash_leaves_the_file_that_was_written()
    ensures left { CrashLeavesTheFile }
    ensures opening { CrashWithinAnOpening }
{
    nbt_store::laws::a_crash_of_the_disk_leaves_what_calls_may_leave();
}

/// So is what a crash leaves of a disk, after a store was opened over it and called.
pub fn a_crash_leaves_the_header_that_was_written<D: Disk>()
    ensures { CrashLeavesTheHeader D.does }
{
    a_crash_leaves_the_file_that_was_written();
    nbt_store::laws::calls_of_a_store_ask_in_turn::<D>();
}

/// So a server whose file was written anew with what it began with lives over any number of crashes, each at or within any call of its devices:
/// the next start that finds what the crash left of the file goes on with that server, or begins anew, and what holds as one begins holds as the
/// next one does. It is a premise that each new file was begun with a header of that server, with its start, its life and its longest lease, and
/// that the calls of its store asked of the disk what such calls ask. `nbt_whole` says of a whole server that they did (`next`). Where the crash comes
/// as the file is being written anew, within the opening of a store, it leaves what one before it leaves; or the new file, and the next start goes on with
/// the server that began with it, which did nothing yet, or begins anew (`opening`).
pub fn a_start_finds_the_file_that_was_written()
    ensures next { FileNextStart }
    ensures opening { OpeningNextStart }
{
    a_crash_leaves_the_file_that_was_written();
    a_server_lives_over_any_number_of_crashes();
    nbt_store::laws::a_file_has_one_reading();
}

/// So a start that finds what a crash left of a server's disk, and goes on, finds what that server left, with its start, its life and its longest
/// lease (`found`). It is a premise that each new file was begun with a header that has these. And so
/// a server whose store is over a disk lives over any number of crashes, each at or within any call of its devices: what holds as it begins holds as
/// it begins again (`next`).
/// Where the file's own clock goes on, it is a premise that it hasn't gone back (`HasNotGoneBack`).
pub fn a_start_finds_what_the_disk_kept<D: Disk>()
    ensures found { StartFindsLeft D.does }
    ensures next { DiskNextStart D.does }
{
    a_crash_leaves_the_header_that_was_written::<D>();
    a_start_finds_the_file_that_was_written();
    nbt_store::laws::calls_of_a_store_ask_in_turn::<D>();
    nbt_store::laws::a_file_has_one_reading();
}

/// A network of a server and one to eight hosts, no two at one 32-bit address, is safe: from a wire on which nothing happened yet, through all that may happen, no two hosts hold one name, unless
/// both as a group, at any time up to which the clocks were timely; and so at any up to which they kept the drift bound. `timely` and `kept`
/// say exactly whether they were and did, between any two of the times. The network leads to a world with the wire's clocks and addresses, and the hosts as its nodes (`run`).
pub fn lives_are_safe()
    ensures run { (config : ConfigValue) (addrs : List Addr) (happenings : List Happening) (now : WorldValue) (server : ServerEnd) (hosts : ℕ → Option NodeValue)
        → AreAddrs addrs → (net : Network config addrs happenings now server hosts) → NetworkIsARun net.first now hosts }
    ensures timely { (config : ConfigValue) (addrs : List Addr) (happenings : List Happening) (now : WorldValue) (server : ServerEnd) (hosts : ℕ → Option NodeValue)
        → AreAddrs addrs → Network config addrs happenings now server hosts → IsTrue now.timely → NoTwoHold now hosts }
    ensures kept { (config : ConfigValue) (addrs : List Addr) (happenings : List Happening) (now : WorldValue) (server : ServerEnd) (hosts : ℕ → Option NodeValue)
        → AreAddrs addrs → Network config addrs happenings now server hosts → IsTrue now.kept → NoTwoHold now hosts }
    ensures told { (config : ConfigValue) (addrs : List Addr) (happenings : List Happening) (now : WorldValue) (server : ServerEnd) (hosts : ℕ → Option NodeValue)
        → AreAddrs addrs → (net : Network config addrs happenings now server hosts) → (IsTrue now.timely ↔ AreTimely net.wires) × (IsTrue now.kept ↔ KeepDriftBound net.wires) }
{
    nbt_world::laws::every_run_is_safe();
    nbt_world::laws::ids_and_early_refreshes_keep_the_facts();
    nbt_world::laws::limits_keep_the_facts();
    nbt_world::laws::facts_of_every_world();
}

/// A server may have several addresses of its own, of which each host asks one in each of its lives. Such a network is one in which all hosts ask the first (`one`). So
/// no two hosts hold one name in it, unless both as a group, at any time up to which the clocks were timely (`timely`), or kept the drift bound (`kept`).
/// Nor is that of nothing: each network is one in which the hosts ask any such addresses, and hold the same names (`several`). What may come to a host from the
/// first address may come to it from each (`comes`), however the wire has that one; and it has all addresses but the server's as they are (`rest`).
pub fn a_server_may_have_several_addresses()
    ensures one { (config : ConfigValue) (addrs : List Addr) (happenings : List Happening) (now : WorldValue) (server : ServerEnd) (hosts : ℕ → Option NodeValue)
        → NetworkOfSeveralAddresses config addrs happenings now server hosts → IsAsWithOne config addrs happenings now server hosts }
    ensures timely { (config : ConfigValue) (addrs : List Addr) (happenings : List Happening) (now : WorldValue) (server : ServerEnd) (hosts : ℕ → Option NodeValue)
        → AreAddrs addrs → NetworkOfSeveralAddresses config addrs happenings now server hosts → IsTrue now.timely → NoTwoHold now hosts }
    ensures kept { (config : ConfigValue) (addrs : List Addr) (happenings : List Happening) (now : WorldValue) (server : ServerEnd) (hosts : ℕ → Option NodeValue)
        → AreAddrs addrs → NetworkOfSeveralAddresses config addrs happenings now server hosts → IsTrue now.kept → NoTwoHold now hosts }
    ensures several { (config : ConfigValue) (addrs : List Addr) (happenings : List Happening) (now : WorldValue) (server : ServerEnd) (hosts : ℕ → Option NodeValue)
        → (net : Network config addrs happenings now server hosts) → (asked : ℕ → Addr) → ((index : ℕ) → IsServers net.first.ends (asked index)) → IsAsWithSeveral config addrs asked happenings now server hosts }
    ensures comes { (wire : WorldValue) (asked from to : Addr) (octets : List ℕ) → IsServers wire.ends asked → IsServers wire.ends from → Comes wire wire.ends.server_addr to octets → Comes wire (as_first wire.ends.server_addr asked from) to octets }
    ensures rest { (first asked addr : Addr) → addr.ip ≢ asked.ip → addr.ip ≢ first.ip → as_first first asked addr ≡ addr }
{
    lives_are_safe();
}

/// A start that finds what a crash left of a run, and goes on, resumes an earlier server of that run, which knows of each reply that has
/// left. All times of that server count as later by one constant. Its live leases, its start, its life and its longest lease are the same,
/// and it has the number of rows of this start. It serves from no earlier than that server's last datagram, counted so much later. So this start is the world's
/// event of a server that resumes, where all times of the server's end count so; and its number of rows is another one then.
///
/// Where the clock of the file's own boot goes on, it is a premise that this clock reads no less than at the earlier server's last
/// datagram. Over any other clock that is proved.
pub fn a_start_resumes_an_earlier_server()
    ensures resumes { StartResumesAnEarlierServer }
    ensures event { (shift rows : ℕ) (was server : ServerValue) (now : ℕ) (ends : Ends) → ServerResumes (with_rows rows (shifted_server shift was)) now server → ends.server ≡ None → ends.crashed ≡ Some was
        → Resumes now (shifted_server_end shift ends) (with_server (shifted_server_end shift ends) (Some (with_rows was.table.config.rows server)) None) }
{
    nbt_serve::laws::a_crash_leaves_an_earlier_server();
    nbt_serve::laws::what_is_kept_resumes();
    nbt_store::laws::a_file_has_one_reading();
    nbt_store::laws::a_new_clock_begins_at_the_last_time();
    nbt_server::laws::a_shifted_server_does_the_same();
}

/// A server was down for a millisecond or longer, and its clock goes on over another boot of the machine, or on another machine. Whatever
/// the machine's clock shows then, the clock at the server's place isn't ahead of any earlier time that the old one wasn't ahead of, as
/// long as the new one isn't ahead from the start on. Between two later times between which the new one isn't ahead, the place's isn't
/// either, and it never goes back. Where the old one served no more than a second past the last time of the file, the server serves only once the new clock reads no less than any time at which the old one served;
/// from then on the place's clock is the new one.
pub fn a_clock_over_another_boot_is_not_ahead()
    ensures not_ahead { (h : Header) (times : Times) (seen : Seen) (true_then read_then true_now read_now pause true_later read_later : ℕ) → times.last ≤ read_now → IsNotAhead true_then read_then true_now read_now
        → 1 ≤ pause → true_now + pause ≤ true_later → IsNotAhead (true_now + pause) (by_new_clock h times seen).reads true_later read_later
        → IsNotAhead true_then (counted (by_new_clock h times seen) read_then) true_later (place_reads (by_new_clock h times seen) read_now read_later) }
    ensures later { (h : Header) (times : Times) (seen : Seen) (read_now true_early read_early true_later read_later : ℕ) → true_early ≤ true_later → IsNotAhead true_early read_early true_later read_later
        → IsNotAhead true_early (place_reads (by_new_clock h times seen) read_now read_early) true_later (place_reads (by_new_clock h times seen) read_now read_later) }
    ensures onward { (h : Header) (times : Times) (seen : Seen) (read_now read_early read_later : ℕ) → read_early ≤ read_later
        → (counted (by_new_clock h times seen) read_now ≤ place_reads (by_new_clock h times seen) read_now read_early) × (place_reads (by_new_clock h times seen) read_now read_early ≤ place_reads (by_new_clock h times seen) read_now read_later) }
    ensures served { (h : Header) (times : Times) (seen : Seen) (read_now read_later : ℕ) → read_now ≤ times.last + unseen → (by_new_clock h times seen).serves ≤ read_later
        → (counted (by_new_clock h times seen) read_now ≤ (by_new_clock h times seen).serves) × (place_reads (by_new_clock h times seen) read_now read_later ≡ read_later) }
{
    nbt_world::laws::a_clock_that_stood_is_not_ahead();
    nbt_store::laws::a_new_clock_begins_at_the_last_time();
}

/// A network of programs isn't empty: from nothing each host gets each name that doesn't begin with `*` and that it registers, while all clocks keep the drift bound (`anew`). Any network in which a host can get a name goes on so that it gets it
/// by three acts at one time, its own, the server's and its own, and each other host is as it was (`gets`). Where the server takes the request and the host hears the reply, all at that moment, the host gets the name whatever each of them makes of it (`surely`).
pub fn a_network_gets_a_free_name()
    ensures anew { NewNetworkGets }
    ensures gets { NetworkGets }
    ensures surely { RequestGets }
{
    nbt_packet::laws::written_form_is_read();
    nbt_packet::laws::one_message_spelled();
    nbt_server::laws::one_reply();
    nbt_node::laws::one_answer();
    nbt_world::laws::every_run_is_safe();
    nbt_world::laws::ids_and_early_refreshes_keep_the_facts();
    nbt_world::laws::limits_keep_the_facts();
    nbt_world::laws::facts_of_every_world();
}
