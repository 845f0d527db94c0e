//! A whole name server lives in a network, and is watched: each law is the contract of a function that does nothing.

ghost use Rattle.nbt_whole.specs.Aging.{LeasesAreRecent, HostsAreRecent, StatisticsAreRecent};
ghost use Rattle.nbt_whole.specs.Nbns.{NbnsAreLived, FailedNbnsAreLived, KeptAreLived, FailedKeptAreLived, KeptGoOn, FailedKeptGoOn};
ghost use Rattle.nbt_whole.specs.Watched.{NbnsAreWatched, FailedNbnsAreWatched, KeptAreWatched, FailedKeptAreWatched};
ghost use Rattle.nbt_whole.specs.Printed.{EachLineIsPrintedOrCounted};
ghost use Rattle.nbt_whole.specs.Said.{WhatIsWatchedIsSaid, RunsBeginNew};

/// What the contract of [`nbt_nbns::run_nbns`] says of a server without a state is a life of it, from its first call to its last: until its time is over
/// (`bare`), or until its port fails for good (`bare_failed`). So is what `RunsKept`, which is of the contract of [`nbt_nbns::run_server`], says of a
/// server with a state (`kept`), and what `KeptFails`, which is of that contract too, says of one whose port or store fails (`kept_failed`), from the server that it begins as. All that
/// its port, its clock and its store did stands in one order, and at each reading of the clock the acts at that time. A front that is read anew
/// takes the place of its own between two calls. With a state a run begins with that server, and the calls of the port and the store are those of that run;
/// each new file is begun with that server's start, its life and its longest lease;
/// a reply may leave later than at its act, but no longer than a datagram's life after its request was read.
pub fn a_whole_server_is_lived()
    ensures bare { NbnsAreLived }
    ensures bare_failed { FailedNbnsAreLived }
    ensures kept { KeptAreLived }
    ensures kept_failed { FailedKeptAreLived }
{
    nbt_net::laws::a_server_lives_over_any_number_of_crashes();
}

/// And so a server with a state goes on over any number of crashes, end to end. By the contract of [`nbt_nbns::run_server`] it wrote the file in its folder anew, with the header
/// and the live leases with which it began, and each call of its store asks of the disk what such a call asks. So, by the premise on disks, whatever a crash leaves of
/// that file, behind any of its calls or within it, is what the next start goes on from, with this server's start, its life and its longest lease; or it
/// begins anew. What held as this server began holds as the next one does. A crash as that file is being written leaves what one before it leaves, or the same
/// holds. So it is until its time is over (`kept`), or its port or its store fails (`kept_failed`).
pub fn a_server_with_a_state_goes_on()
    ensures kept { KeptGoOn }
    ensures kept_failed { FailedKeptGoOn }
{
    a_whole_server_is_lived();
    nbt_net::laws::a_start_finds_the_file_that_was_written();
}

/// The journal of a name server, which is its log, its lists and its statistics, is shown the turns of the server. Without a state it is shown the entry of each
/// turn that goes well, in their order and none else, until its time is over (`bare`) or its port fails for good (`bare_failed`). With a state each entry that
/// it is shown is that of a turn before it, each once and in their order (`kept`, `kept_failed`); the others aren't shown yet in the end, or are left out, each since it has a reply, or since more
/// than 64 wait. It is shown the server as it is by then, and each showing is what the journal's contract says.
pub fn a_server_is_watched_in_turn()
    ensures bare { NbnsAreWatched }
    ensures bare_failed { FailedNbnsAreWatched }
    ensures kept { KeptAreWatched }
    ensures kept_failed { FailedKeptAreWatched }
{}

/// A run begins with a journal that was shown nothing (`begins`). After any of its events, and so at any time of it, the counts are those of the entries that were
/// shown, each counted once, and the text that a place was given last is that of one showing (`said`): the list of the leases that lived at that moment, or the hosts
/// of that moment beside the names that were fixed then, or the statistics of that moment.
pub fn what_is_watched_is_said()
    ensures begins { RunsBeginNew }
    ensures said { WhatIsWatchedIsSaid }
{}

/// What was written of a log and what waits for its reader, taken together, grew by its lines alone, one for each showing, in their order: each is printed, or it is dropped,
/// and the next one that is printed has a note of how many were. The statistics count those that were dropped. So it is too where memory was refused, and where the log couldn't be
/// written. Where memory was refused as a line was made, that line is dropped; what it would have been isn't said.
pub fn each_line_is_printed_or_counted()
    ensures { EachLineIsPrintedOrCounted }
{}

/// As long as a showing is at most `gap` milliseconds after the one before, and the server has at most `most` rows, the text that the place of the list of leases was given last is that of
/// a showing that is no older at the last one than a second, a gap, and twice 5 ms and a gap for each 256 rows (`leases`), unless a look at the list failed no longer ago than that. It has
/// one once as long has passed from the beginning, and from the last look that failed. So it is with the hosts (`hosts`), in four times 5 ms and a gap for each 256 rows in place of twice.
pub fn what_is_listed_is_recent()
    ensures leases { LeasesAreRecent }
    ensures hosts { HostsAreRecent }
{}

/// So it is with the statistics: their text is that of a showing that is no older at the last one than a second, whatever `gap` and `most` are, unless a look at them failed no longer ago
/// than that.
pub fn the_statistics_are_recent()
    ensures { StatisticsAreRecent }
{}
