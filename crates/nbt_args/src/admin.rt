//! The commands for people who run a network, `lookup`, `status`, `nbns`, `host` and `release`.

use crate::argument::{Argument, Description, Form, Presence};

/// The least of the three values of `--tries`.
pub const ONCE: &str = "1";

/// The second of the three values of `--tries`.
pub const TWICE: &str = "2";

const SCOPE: Argument = Argument {
    name: "scope",
    form: Form::Option("SCOPE"),
    presence: Presence::Optional,
    help: "The scope of a name that is written without one, as NETBIOS.COM",
};

const EXACT: Argument = Argument {
    name: "exact",
    form: Form::Flag,
    presence: Presence::Optional,
    help: "Keeps lower-case letters, which otherwise become capitals",
};

const SERVER: Argument = Argument {
    name: "server",
    form: Form::Option("ADDR"),
    presence: Presence::Required,
    help: "The name server's address, by default at port 137",
};

/// The servers of a host.
const SERVERS: Argument = Argument {
    name: "server",
    form: Form::Options("ADDR"),
    presence: Presence::Required,
    help: "The name server's address, by default at port 137; up to 4 with --one-table",
};

/// Whether the servers of a host are one.
const ONE_TABLE: Argument = Argument {
    name: "one-table",
    form: Form::Flag,
    presence: Presence::Optional,
    help: "All of --server are addresses of one table of names: those of one server, or of a cluster",
};

const TRIES: Argument = Argument {
    name: "tries",
    form: Form::OptionChoice("N", &[ONCE, TWICE, "3"]),
    presence: Presence::Default("3"),
    help: "How many requests it sends at most, one every 5 s",
};

pub const WAIT: Argument = Argument {
    name: "wait",
    form: Form::Option("TIME"),
    presence: Presence::Default("5s"),
    help: "How long it waits for a reply after the last request: from 1ms to 5s",
};

const BIND: Argument = Argument {
    name: "bind",
    form: Form::Option("ADDR"),
    presence: Presence::Default("0.0.0.0:0"),
    help: "The own address, by default at port 0, for which the system chooses one",
};

const LIFE: Argument = Argument {
    name: "life",
    form: Form::Option("TIME"),
    presence: Presence::Default("1s"),
    help: "The greatest life of a datagram: from 1ms to 60s",
};

const LONGEST: Argument = Argument {
    name: "longest",
    form: Form::Option("TIME"),
    presence: Presence::Default("5m"),
    help: "The longest lease, in whole seconds: at least 30s and 20 times --life, at most 1000000s",
};

const FOR: Argument = Argument {
    name: "for",
    form: Form::Option("TIME"),
    presence: Presence::Optional,
    help: "Ends after this time; without it, a signal ends it",
};

pub static LOOKUP: Description = Description {
    name: "lookup",
    about: "Asks a name server who holds a name",
    arguments: &[
        Argument {
            name: "name",
            form: Form::Placed("NAME"),
            presence: Presence::Required,
            help: "The name to look up",
        },
        SERVER,
        SCOPE,
        EXACT,
        TRIES,
        WAIT,
        BIND,
    ],
    help: "\
Prints one address per line, as `192.0.2.7 unique` or `192.0.2.7 group`, then `cut` if the reply was truncated. If nobody holds
NAME, prints `not found: no such name (3)`, with the server's own reason. If no reply comes, prints `no reply`.
`255.255.255.255 group` is no holder: the server keeps no members of that group. `0.0.0.0 group` says no member's address.

NAME is `FILER`, `FILER#20` or `FILER<20>`: 1 to 15 characters and the suffix in two hexadecimal digits, by default 20. Any
other name is `hex:` and 32 digits. A scope may follow the suffix or the digits, as in `FILER#20.NETBIOS.COM`, and is taken as it
is written. ADDR is A.B.C.D or A.B.C.D:PORT, in decimal with no leading zeros, and that of --server one machine's. TIME is a
number and its unit, as 500ms or 5s.

Examples:
  nbt lookup FILER --server 192.0.2.1
  nbt lookup 'WORKGROUP<1C>' --server 192.0.2.1 --tries 1 --wait 500ms

Exit status:
  0  found
  1  not found
  2  wrong usage, which standard output explains, or an invalid argument, which standard error explains
  3  no port or no clock, or a socket or the output failed; prints `device`, unless it was the output
  4  out of memory; prints `memory`
  5  no reply",
};

pub static STATUS: Description = Description {
    name: "status",
    about: "Asks a host which names it holds",
    arguments: &[
        Argument {
            name: "host",
            form: Form::Placed("ADDR"),
            presence: Presence::Required,
            help: "The host's address, by default at port 137",
        },
        Argument {
            name: "name",
            form: Form::Placed("NAME"),
            presence: Presence::Default("*"),
            help: "The name to which the request is sent",
        },
        Argument {
            name: "also",
            form: Form::Options("ADDR"),
            presence: Presence::Optional,
            help: "Another host, asked next; may be repeated; each line then begins with its host's address",
        },
        SCOPE,
        EXACT,
        TRIES,
        WAIT,
        BIND,
    ],
    help: "\
Prints one line per name, as `FILER#20 unique active  file server`: the name and its suffix, `unique` or `group`, its state at
the host, and the suffix's meaning in Microsoft's list, if it is there. A name that can't be written so is `hex:` and 32 digits.
The last line is `unit id` and six octets, mostly the address of a network card, unless they are zero. If no reply comes, prints
`no reply`.

ADDR is A.B.C.D or A.B.C.D:PORT, in decimal with no leading zeros. TIME is a number and its unit, as 500ms or 5s. NAME is one of
the host's names, or `*` for any of them, written as `nbt lookup --help` says.

With --also the hosts are asked one after the other, in the order given. Each line begins with the address of its host as it was
given, and a space. The exit status is the greatest of theirs.

Examples:
  nbt status 192.0.2.7
  nbt status 192.0.2.7 FILER --tries 1 --wait 500ms
  nbt status 192.0.2.7 --also 192.0.2.8 --also 192.0.2.9

Exit status:
  0  done
  1  the host doesn't hold NAME; prints `not found`, with its reason
  2  wrong usage, which standard output explains, or an invalid argument, which standard error explains
  3  no port or no clock, or a socket or the output failed; prints `device`, unless it was the output
  4  out of memory; prints `memory`
  5  no reply",
};

/// The option that keeps the leases of a name server.
const STATE: &str = "state";

/// The option that prints what a name server does.
const LOG: &str = "log";

pub static NBNS: Description = Description {
    name: "nbns",
    about: "Runs a name server",
    arguments: &[
        Argument {
            name: "bind",
            form: Form::Options("ADDR"),
            presence: Presence::Optional,
            help: "An address to serve at, by default at port 137; may be repeated; without it, every address of the machine",
        },
        LIFE,
        LONGEST,
        FOR,
        Argument {
            name: LOG,
            form: Form::Flag,
            presence: Presence::Optional,
            help: "Prints a line for each grant, renewal, refusal and release, and for a packet without a reply",
        },
        Argument {
            name: "log-broadcasts",
            form: Form::Flag,
            presence: Presence::Optional,
            help: "Prints a line for each broadcast of a B node too; has no effect without --log and --bind 0.0.0.0",
        },
        Argument {
            name: "log-rate",
            form: Form::Option("N"),
            presence: Presence::With(LOG),
            help: "With --log, how many lines of a kind it prints in a second: from 1 to 255, 0 for all; without it, 10",
        },
        Argument {
            name: "leases",
            form: Form::Option("FILE"),
            presence: Presence::Optional,
            help: "Keeps the list of live leases in this file, which is replaced only if it is such a list, or empty",
        },
        Argument {
            name: "hosts",
            form: Form::Option("FILE"),
            presence: Presence::Optional,
            help: "Keeps its file servers as lines of /etc/hosts in this file, for a resolver, as --leases does",
        },
        Argument {
            name: "stats",
            form: Form::Option("FILE"),
            presence: Presence::Optional,
            help: "Keeps its statistics in this file, for Prometheus, as --leases does",
        },
        Argument {
            name: "strict",
            form: Form::Flag,
            presence: Presence::Optional,
            help: "Doesn't accept the registrations of Samba's programs",
        },
        Argument {
            name: "rows",
            form: Form::Option("N"),
            presence: Presence::Optional,
            help: "How many live leases it keeps: from 1 to 1048576; without it, 4096",
        },
        Argument {
            name: "rows-per-client",
            form: Form::Option("N"),
            presence: Presence::Optional,
            help: "How many live leases a client may have: from 1 to 1048576; without it, 64",
        },
        Argument {
            name: "allow",
            form: Form::Options("NETWORK"),
            presence: Presence::Optional,
            help: "A network whose machines may register, and may be repeated; without it and --allow-file, every machine may",
        },
        Argument {
            name: "allow-file",
            form: Form::Option("FILE"),
            presence: Presence::Optional,
            help: "The machines of the networks of this file may register too; without it and --allow, every machine may",
        },
        Argument {
            name: "fixed",
            form: Form::Option("FILE"),
            presence: Presence::Optional,
            help: "Answers for the names of this file too, which are always there",
        },
        Argument {
            name: STATE,
            form: Form::Option("FOLDER"),
            presence: Presence::Optional,
            help: "Keeps the leases in this folder, and goes on with them after a restart",
        },
        Argument {
            name: "silent-after-boot",
            form: Form::Flag,
            presence: Presence::With(STATE),
            help: "With --state, doesn't go on with the leases after a boot of the machine",
        },
        Argument {
            name: "changes-per-client",
            form: Form::Option("N"),
            presence: Presence::With(STATE),
            help: "With --state, how many changes a client may make in a second: 0 for any number; without it, 20",
        },
        Argument {
            name: "check",
            form: Form::Flag,
            presence: Presence::Optional,
            help: "Serves nothing, and prints what a start would do",
        },
    ],
    help: "\
The first line has its addresses, and for how long and until when it is silent, as `serving 127.0.0.1:137, 192.0.2.1:137, silent
for 300 s until 2026-11-24T09:17:03Z`. Without --state it keeps its leases in memory only, so after each start it waits until
every lease that it may have granted before has expired. Then it serves until a signal or --for ends it; its leases expire by
themselves. The standard port is 137, for which most systems require privileges.

With --state it writes each change of a lease to FOLDER/leases before its reply leaves, and a later start goes on at once: the
first line is `serving 192.0.2.1:137, with 17 leases kept`. Where it can't go on, the line says why: `silent for 300 s until
2026-11-24T09:17:03Z, since nothing was kept`. After another boot, or on another machine, it goes on too, a second later, unless
--silent-after-boot. What FOLDER has must be what this server kept last: a copy or an older state may grant a name to a second
machine. FOLDER must exist, and one server at a time may use it: a second one ends with status 6, and prints nothing. It ends with
status 3 if FOLDER is moved or replaced.

--check reads all arguments, the files of --fixed and --allow-file, what stands at each FILE, and FOLDER, and ends: nothing is bound, made or changed.
It prints how a server would begin that started now, as `would serve, with 17 leases kept`, or on standard error the first fault, with
the status of a start. Whether an address is free, whether a file can be made in FOLDER, and whether a FILE can be written to, isn't
tried. The status is 6 if another server uses FOLDER: the line then says what a start would do if that one ended now. --bind, --for,
--log, --log-broadcasts, --log-rate, --strict, --rows-per-client and --allow have no effect then.

A reply leaves from the address at which its request came. Without --bind it serves every IPv4 address of the machine at port 137,
by a socket for each: standard error says when one comes or goes. --bind 0.0.0.0 is one socket for all, which hears broadcasts too,
and whose replies leave from the address that the system chooses.

ADDR is A.B.C.D or A.B.C.D:PORT; for port 0 the system chooses one, which the first line has. TIME is a number and its unit, as
1500ms, 300s, 5m, 2h or 1d. The longest lease must be at least 30 s and at least 20 lives of a datagram, else a hold would lapse
before it can be refreshed. If it is above an hour, and without --state, standard error says for how long each start is silent.

--log prints lines as `2026-11-24T09:12:03Z granted FILER#20 192.0.2.7 unique 300 s`; `renewed`, `refused` with the sender and
the reason, `released`, `unanswered` for a request during the silence, and `malformed` or `foreign` for a packet that is no
request: of each kind at most ten per second, or as many as --log-rate says. --leases writes the list of live leases to FILE.new and
renames that to FILE, when it has changed and at most once per second: a first line that says what it is, and one line per lease, as
`FILER#20 unique 192.0.2.7 2026-11-24T09:17:03Z`, with the time of its expiry.

--hosts keeps a FILE likewise, with one line per live lease of a file server, as `192.0.2.7 FILER`: of a unique name of suffix 20,
without a scope, of letters, digits and inner hyphens. A name with a small letter is left out while another has its letters in
another case, and any that has the letters of a fixed name. --stats keeps one with its statistics, in Prometheus' text format for
the node exporter's textfile collector. The three files must differ.

A client is the address that a registration comes from. One with as many live leases as --rows-per-client says, unique names and
groups together, is refused one of a further name, with SRV_ERR; what it has it keeps, and renews. Machines behind one address count
as one client. While the server keeps as many leases as --rows says, it refuses each further one likewise. With --state a start with
fewer --rows than before doesn't go on with the leases that were kept.

NETWORK is an address and how many of its first bits the others share, as 192.0.2.0/24, or an address alone. A machine of no NETWORK
is refused each registration, refresh and overwrite, with RFS_ERR; it may still ask for names. --fixed reads FILE: lines as
`FILER#20 unique 192.0.2.7` and `OFFICE#00 group 192.0.2.9`, with spaces or tabs between the words, of which several of one group
are its addresses, up to 48; up to 65536 names; a line that begins with # is a remark. `nbt import` makes such a file of an lmhosts
or a wins.dat. Such a name is found from the first moment on, with the longest lease
as its TTL. Its own machine may register, refresh and release it, which changes nothing; nobody else may, with ACT_ERR. With --state
a lease that another machine has of it wins until it ends, or is released: it is found, but not renewed, and the name's own machine
gets ACT_ERR; standard error says so at the start. It says too what was refused, as `nbt: refused FILER#20 192.0.2.9: a fixed name`,
at most ten lines per second.

--allow-file reads FILE: a NETWORK a line, one at least; a line that begins with # is a remark. A FILE of --fixed or --allow-file that is
replaced while the server runs is read within two seconds, and standard error says what changed, as `nbt: fixed names: 12; added
LASER3#20`. A wrong line changes nothing. A lease that another machine has of a new name wins until it ends. A name that goes, or
gets another address, is refused to other machines for the longest lease.

Samba's nmbd registers its names by OPCODE 15, and joins groups by an overwrite. Such a registration of one address, and such an
overwrite of a group, are accepted as registrations, unless --strict. A machine that registers two addresses isn't served: its
second one is refused, and nmbd then drops its names.

Examples:
  nbt nbns
  nbt nbns --bind 192.0.2.1 --bind 198.51.100.1 --longest 10m --log --leases leases.txt
  nbt nbns --state /var/lib/nbt --allow 192.0.2.0/24 --fixed printers.txt
  nbt nbns --state /var/lib/nbt --allow 192.0.2.0/24 --fixed printers.txt --check

Exit status:
  0  done
  2  wrong usage, which standard output explains; an invalid argument, or a wrong line in a file of --fixed or --allow-file, which
     standard error explains
  3  no port or no clock, a socket failed 100 times in a row, FOLDER can't be read or written, such a file can't be read,
     a FILE can't be replaced, or the output failed; prints `device`, unless it was FILE or the output
  4  out of memory at the start; prints `memory`
  6  another server uses FOLDER, as standard error says",
};

pub static HOST: Description = Description {
    name: "host",
    about: "Holds names for this machine at a name server, and answers for them",
    arguments: &[
        Argument {
            name: "name",
            form: Form::PlacedMany("NAME"),
            presence: Presence::Unless("group"),
            help: "The names to hold, each for this machine alone",
        },
        SERVERS,
        ONE_TABLE,
        Argument {
            name: "bind",
            form: Form::Option("ADDR"),
            presence: Presence::Required,
            help: "This machine's address for these names, by default at port 137",
        },
        Argument {
            name: "group",
            form: Form::Options("NAME"),
            presence: Presence::Optional,
            help: "A name to hold as a group; may be repeated",
        },
        SCOPE,
        EXACT,
        LIFE,
        LONGEST,
        FOR,
        Argument {
            name: "log",
            form: Form::Flag,
            presence: Presence::Optional,
            help: "Prints a line for each renewal too",
        },
    ],
    help: "\
Holds 1 to 14 names: each NAME for this machine alone, each --group with others. It registers them a little more than twice
LIFE after its start, for as long as the server allows, refreshes them, answers queries and status requests for them, and
requests them again after a refusal. Prints one line per event, with its time: a name is granted, refused (with the reason),
lost, or lapsed, since no reply came in time. When its time ends, it releases the names and prints which releases the server
confirmed. A signal ends it at once, and its leases expire by themselves.

Of several --server it asks the first. When it has asked one without a reply for 15 s or more, and nothing has come from it for
LONGEST, the host starts again at the next one, and after the last at the first: it holds nothing, rests, and registers its names
there. They must all be addresses of one table of names, which --one-table says: of two tables each would give a name to another
host.

NAME is as `nbt lookup --help` says. ADDR is A.B.C.D or A.B.C.D:PORT, of one machine and so not 0.0.0.0: --bind is an address at
which other hosts reach this machine, and not that of --server. TIME is a number and its unit, as 1500ms, 300s, 5m, 2h or 1d.
--life and --longest must be those of the server; their defaults and limits are those of `nbt nbns`.

Examples:
  nbt host FILER 'FILER<00>' --group 'WORKGROUP<00>' --server 192.0.2.1 --bind 192.0.2.7
  nbt host FILER --server 192.0.2.1 --bind 192.0.2.7 --for 8m --log
  nbt host FILER --server 192.0.2.1 --server 198.51.100.1 --one-table --bind 192.0.2.7

Exit status:
  0  all names were held at the end
  2  wrong usage, which standard output explains, or an invalid argument, which standard error explains
  3  no port or no clock, a socket failed 100 times in a row, or the output failed; prints `device`, unless it was the output
  4  out of memory; prints `memory`
  5  a name wasn't held at the end",
};

pub static RELEASE: Description = Description {
    name: "release",
    about: "Releases names that a host of this machine left at a name server",
    arguments: &[
        Argument {
            name: "name",
            form: Form::PlacedMany("NAME"),
            presence: Presence::Unless("group"),
            help: "The names that the host held, each for this machine alone",
        },
        SERVERS,
        ONE_TABLE,
        Argument {
            name: "bind",
            form: Form::Option("ADDR"),
            presence: Presence::Required,
            help: "The host's address, by default at port 137",
        },
        Argument {
            name: "group",
            form: Form::Options("NAME"),
            presence: Presence::Optional,
            help: "A name that it held as a group; may be repeated",
        },
        SCOPE,
        EXACT,
        LIFE,
        LONGEST,
        FOR,
        Argument {
            name: "log",
            form: Form::Flag,
            presence: Presence::Optional,
            help: "Has no effect",
        },
    ],
    help: "\
Sends a release request for each name from the address and the port of the host. While a host runs there, that port can't be
bound, and nothing is sent. Each request is sent up to three times, one every 5 s, until its reply comes. At the end prints one
line per name: `released FILER#20`; `not leased FILER#20` if the server says that it has no such name, which `nbt nbns` doesn't: it
confirms that too; `refused FILER#20: held by another (6)`, with the server's own reason; or `no reply for FILER#20`. Without a
route to the server it ends at once, with status 3, and standard error says so.

The arguments are those of `nbt host`, so that the same settings serve both. --life, --longest, --for and --log have no effect.
Of several --server the first is asked, and no other.
The port of --bind is the host's, and so not 0. From another port a host that runs isn't noticed, and loses its names: a server
knows a host by its address alone.

Examples:
  nbt release FILER 'FILER<00>' --group 'WORKGROUP<00>' --server 192.0.2.1 --bind 192.0.2.7

Exit status:
  0  all names were released, or not leased
  1  a release was refused, or got no reply
  2  wrong usage, which standard output explains, or an invalid argument, which standard error explains
  3  a host runs there, no port or no clock, or a socket or the output failed; prints `device`, unless it was the output
  4  out of memory; prints `memory`",
};
