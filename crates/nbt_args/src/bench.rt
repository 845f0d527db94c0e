//! The commands of the bench that open no socket, `answer`, `show`, `check` and `sim`.

use crate::argument::{Argument, Description, Form, Presence};

pub const AT: Argument = Argument {
    name: "at",
    form: Form::Option("MS"),
    presence: Presence::Default("60000"),
    help: "The time, in milliseconds since the server began: from 0 to 1152921504606846976",
};

pub static ANSWER: Description = Description {
    name: "answer",
    about: "Answers one packet to the name service, as a new server would, and prints the reply in hexadecimal",
    arguments: &[
        Argument {
            name: "from",
            form: Form::Placed("FROM"),
            presence: Presence::Required,
            help: "The packet's sender, as A.B.C.D:PORT in decimal with no leading zeros",
        },
        Argument {
            name: "hex",
            form: Form::Placed("HEX"),
            presence: Presence::Required,
            help: "The packet: an even number of hexadecimal digits of either case, or none",
        },
        AT,
    ],
    help: "\
Answers this one datagram as a new name server would at MS. The server started at 0, its table is empty and has room
for 4096 rows, its longest lease is 60 s, and the life of a datagram 1000 ms. It is silent for the first 60 s. Prints
the reply in lower-case hexadecimal on one line, or the line `none` where the server sends no reply.

Example:
  nbt answer 127.0.0.2:137 0001290000010000000000012045474643454645454341434143414341434143414341434143414341434143410000200001c00c002000010000003c000620007f000002

Exit status:
  0  done
  1  an address or a hexadecimal text can't be read; prints `unreadable`
  2  wrong usage
  3  output failed; prints `device` where it can
  4  an allocation was refused; prints `memory`",
};

pub static SHOW: Description = Description {
    name: "show",
    about: "Shows what the octets of one packet, or of a session's stream, say",
    arguments: &[
        Argument {
            name: "kind",
            form: Form::PlacedChoice("KIND", &["name", "dgram", "session"]),
            presence: Presence::Required,
            help: "The octets' service",
        },
        Argument {
            name: "hex",
            form: Form::Placed("HEX"),
            presence: Presence::Required,
            help: "The octets: an even number of hexadecimal digits of either case, or none",
        },
        Argument {
            name: "explain",
            form: Form::Flag,
            presence: Presence::Optional,
            help: "Then says the same in the words that Wireshark uses; HEX may have colons, spaces and newlines, and - reads it from standard input",
        },
    ],
    help: "\
Prints a line for the header and for each section, then the message that the packet spells, or `none`, and how many
octets it takes. Octets that are no packet print `fault WORD at PLACE`, where places count octets from 0.

A packet spells no message where its broadcast bit is set (but for a status request), and where it is one that this
program leaves out: a registration of several addresses (OPCODE 15), or a challenge between two nodes (a positive
registration response without RA). Nor does one with another OPCODE, other sections, another type, class or length of
data than its message has, or an additional record of another name. A redirect is `fault TooMany at 8`.

A name is the text of its sixteen octets without the spaces at their end, so `FRED` is FRED<20>. Any other suffix
prints as `hex:` and 32 digits, of which the last two are the suffix. The labels of a scope follow, each after a dot.

Of a datagram it prints a line for its type, its flags' octet as it stands, its id and its source; `source NAME` and
`destination NAME` where it has them; `offset N data HEX`, or `error` and the error's code; and how many octets it takes.

Of a session's stream it prints a line for each packet: `message N HEX` with N octets of data, `request CALLED CALLING`,
`positive`, `negative` and the code, `retarget A.B.C.D:PORT` or `keep-alive`; last `rest N`, how many octets are left,
which begin with no whole packet. Where these have a fault, `fault WORD at PLACE` stands in place of the rest, and PLACE
counts from the first of them.

Examples:
  nbt show name 0001290000010000000000012045474643454645454341434143414341434143414341434143414341434143410000200001c00c002000010000003c000620007f000002
  nbt show session --explain '85:00:00:00 83:00:00:01 82'

Exit status:
  0  done
  1  the octets are no packet or have a fault, or HEX can't be read; then prints `unreadable`
  2  wrong usage
  3  output failed; prints `device` where it can
  4  an allocation was refused; prints `memory`",
};

pub static CHECK: Description = Description {
    name: "check",
    about: "Checks vectors from standard input: octets, and what is expected of their reader",
    arguments: &[],
    help: "\
Each line of standard input is `name HEX ok N`, for a packet of the name service that takes N octets, or `name HEX
fault WORD PLACE`, in words between spaces; or the same with `dgram`, for a datagram. Empty HEX is `-`. A WORD that is no
fault of the service is unreadable. Blank lines and lines that begin with `#` are passed over. Prints `pass`, `fail` or
`unreadable` for each other line, last how many passed and failed. At most 1048576 octets are taken.

`nbt show name HEX` and `nbt show dgram HEX` show why a line fails. Lines end with a line feed alone: one that ends
with CR LF is unreadable.

Example:
  printf 'name 000101000002 fault TooMany 4\\n' | nbt check

Exit status:
  0  all passed
  1  a vector failed, or a line or the input can't be read; for the input prints `unreadable`
  2  wrong usage
  3  input or output failed; prints `device` where it can
  4  an allocation was refused; prints `memory`",
};

pub static SIM: Description = Description {
    name: "sim",
    about: "Plays a script from standard input in a network: a name server, nodes, and their datagrams",
    arguments: &[Argument {
        name: "draw",
        form: Form::Flag,
        presence: Presence::Optional,
        help: "Prints a picture of the run in place of the lines, as SVG",
    }],
    help: "\
Each line of standard input is one step, in words between spaces, and each but `config`, `at` and `advance` prints a
line. Blank lines and lines that begin with `#` are passed over. At most 1048576 octets are taken.

  config LIFE LONGEST ROWS NODES   first of all: a datagram's life in ms, the longest lease in s, the server's rows, and
                                   1 to 8 nodes. The server is 127.0.0.1:137, node I is 127.0.0.(I+1):137
  at MS                            the clock goes on to MS, at most 1152921504606846976
  advance MS S N1 ..               the true clock goes on by MS, the server's by S, and each node's by its own number
  start E, crash E                 E is `s`, the server, or `n1` to `n8`: prints `ok`, or `none` where it is so already
  resume s                         the server is up with the leases that it had when it crashed: prints `ok`, or `none`
  ask nI NAME unique|group TTL     node I asks for a name for TTL seconds
  release nI NAME                  node I gives it back
  resolve nI NAME                  node I asks the server who holds it
  status nI ADDRESS NAME           node I asks the end at ADDRESS, A.B.C.D:PORT, which names it holds
  poll nI                          node I sends what is due
  deliver K                        datagram K is delivered, once more if it was before
  stranger ADDRESS E HEX           HEX comes to E from ADDRESS, which is no end's; empty HEX is `-`
  beside ADDRESS E HEX             HEX comes to E from ADDRESS, another program's on an end's machine
  holders NAME                     who holds a name: prints `holders FRED: n1 unique`, or `holders FRED: none`
  kept                             prints `kept` where each end's clock kept within one part in a thousand and a millisecond
                                   of the true one so far, and `broken` where one didn't
  timely                           prints `timely` where none went ahead of it by more, and no node's fell behind it by more,
                                   and `untimely` where one did: the server's may be slow or stand

What a node does prints `sent K`, with the number of the datagram counted from 0, `refused NUMBER WORD`, `none`, or `down`.
A delivery prints `nobody`, `lost`, `down`, `sent K` where the end replies, or `taken`. A line that can't be read prints
`line K: unreadable` and ends the script. Lines end with a line feed alone: one that ends with CR LF is unreadable.

With --draw it prints one SVG in place of the lines: a column for each end, time downwards and shortened, an arrow for each
delivery, a cross where a datagram never comes, a bar beside a node as long as it holds a name, and a thin line beside the
server as long as its lease lives. Names after the hundredth have no bars. A line that can't be read ends the picture, and
standard error says which.

Examples:
  printf 'config 1000 60 4096 1\\nstart s\\nstart n1\\nat 60000\\nask n1 FRED unique 60\\ndeliver 0\\n' | nbt sim
  nbt sim --draw <script >picture.svg

Exit status:
  0  done
  1  a line or the input can't be read; for the input prints `unreadable`
  2  wrong usage
  3  input or output failed; prints `device` where it can
  4  an allocation was refused; prints `memory`",
};
