//! The commands of the bench that open sockets, `serve`, `node` and `loop`.

use crate::argument::{Argument, Description, Form, Presence};

/// The KIND of a name that a group holds.
pub const GROUP: &str = "group";

const BIND: Argument = Argument {
    name: "bind",
    form: Form::Placed("BIND"),
    presence: Presence::Required,
    help: "The own address and port, as A.B.C.D:PORT in decimal with no leading zeros; for port 0 the system chooses one, which is not printed",
};

pub const LIFE: Argument = Argument {
    name: "life",
    form: Form::Placed("LIFE"),
    presence: Presence::Required,
    help: "The greatest life of a datagram, in milliseconds: from 1 to 60000",
};

pub const LONGEST: Argument = Argument {
    name: "longest",
    form: Form::Placed("LONGEST"),
    presence: Presence::Required,
    help: "The longest lease, in seconds: from 1 to 1000000",
};

pub const TTL: Argument = Argument {
    name: "ttl",
    form: Form::Placed("TTL"),
    presence: Presence::Required,
    help: "The seconds to ask for: 0, as long as may be, to 4294967295",
};

pub const TURNS: Argument = Argument {
    name: "turns",
    form: Form::Placed("TURNS"),
    presence: Presence::InsteadOf("forever"),
    help: "How many turns: from 1 to 1000000",
};

const FOREVER: Argument = Argument {
    name: "forever",
    form: Form::Flag,
    presence: Presence::Optional,
    help: "Goes on until a signal ends it, in place of TURNS",
};

pub const PORT: Argument = Argument {
    name: "port",
    form: Form::Placed("PORT"),
    presence: Presence::Required,
    help: "The first of three ports in a row: from 1 to 65533",
};

pub static SERVE: Description = Description {
    name: "serve",
    about: "Runs a name server on a UDP port of this machine",
    arguments: &[BIND, LIFE, LONGEST, TURNS, FOREVER],
    help: "\
Runs a name server with room for 4096 leases, over this machine's clock. It is silent until its longest lease has
passed since it started. A turn is one receive, which waits 100 ms at most. After the last turn prints
`turns T replies R lost L`. With --forever prints first `serving BIND, silent for N s`, and goes on until a signal ends
it. The standard port is 137, for which most systems want more rights.

Example:
  nbt serve 127.0.0.1:10137 1000 60 --forever

Exit status:
  0  done
  1  BIND can't be read; prints `unreadable`
  2  wrong usage
  3  the port or the clock can't be had, or a socket or the output failed; prints `device`, unless it was the output
  4  an allocation was refused; prints `memory`",
};

pub static NODE: Description = Description {
    name: "node",
    about: "Runs an end node that asks a name server for a name, and holds it",
    arguments: &[
        BIND,
        Argument {
            name: "server",
            form: Form::Placed("SERVER"),
            presence: Presence::Required,
            help: "The name server's address and port",
        },
        LIFE,
        LONGEST,
        Argument {
            name: "name",
            form: Form::Placed("NAME"),
            presence: Presence::Required,
            help: "The name to be asked for: as text, or 32 hexadecimal digits, and `.` before each label of its scope",
        },
        Argument {
            name: "kind",
            form: Form::PlacedChoice("KIND", &["unique", GROUP]),
            presence: Presence::Required,
            help: "Who may hold the name: one machine, or a group",
        },
        TTL,
        TURNS,
        FOREVER,
    ],
    help: "\
Runs an end node, over this machine's clock. It asks SERVER for NAME as soon as it may, once a little more than
twice LIFE has passed since it started, refreshes what it holds, and replies to status requests. NAME is registered
under the address of BIND, so 0.0.0.0 won't do. A turn is one receive, which waits 100 ms at most. Prints `granted G`, `renewed G`, `refused R` or
`lost` as it happens, G being seconds and R the RCODE in decimal, and after the last turn `held` or `not held`. With
--forever it goes on until a signal ends it.

Example:
  nbt node 127.0.0.2:10137 127.0.0.1:10137 1000 60 FRED unique 60 --forever

Exit status:
  0  done
  1  BIND, SERVER or NAME can't be read, or NAME begins with *; prints `unreadable`
  2  wrong usage
  3  the port or the clock can't be had, or a socket or the output failed; prints `device`, unless it was the output
  4  an allocation was refused; prints `memory`",
};

pub static LOOP: Description = Description {
    name: "loop",
    about: "Runs a name server and two end nodes on this machine, over real sockets, and tells what they do",
    arguments: &[PORT],
    help: "\
The server is at 127.0.0.1, the nodes n1 and n2 are at 127.0.0.2 and 127.0.0.3, all in this one process. They use the
UDP ports PORT for names and PORT+1 for datagrams, and the TCP port PORT+2 for sessions. Prints a line as soon as a step
is done: n1 and n2 ask for FRED, which n1 gets, and for the group TEAM; n2 looks both up, sends a datagram to FRED, calls
FRED and sends a message; n1 gives FRED back, and n2's next call is refused. A step that got no reply prints `none`.

Example:
  nbt loop 20137

Exit status:
  0  done
  2  wrong usage
  3  a port can't be bound, or a socket fails; prints `device`. Or output failed
  4  an allocation was refused; prints `memory`",
};
