//! The command `scan`, for people who run a network.

ghost use Rattle.std.specs.Prelude.{◌≡◌, IfOk, codes, map};
ghost use Rattle.nbt_args.specs.Inner.Matches.{Tells, argument_of, arguments_of};

use crate::argument::{Argument, Description, Form, Presence};
use crate::texts::{argument, arguments};
use clap::ArgMatches;
use std::alloc::{AllocError, Global};

/// The option that prints each name of a host.
const LONG: &str = "long";

/// The option that prints lines for /etc/hosts.
const HOSTS: &str = "hosts";

/// The option that prints objects of JSON.
const JSON: &str = "json";

pub static SCAN: Description = Description {
    name: "scan",
    about: "Asks the hosts of a network for their names",
    arguments: &[
        Argument {
            name: "addresses",
            form: Form::PlacedMany("ADDRESSES"),
            presence: Presence::Required,
            help: "A network, a range of addresses, or an address",
        },
        Argument {
            name: "rate",
            form: Form::Option("N"),
            presence: Presence::Default("500"),
            help: "How many requests it sends in a second: from 1 to 10000",
        },
        Argument {
            name: "tries",
            form: Form::OptionChoice("N", &["1", "2", "3"]),
            presence: Presence::Default("2"),
            help: "How often it asks an address that doesn't reply",
        },
        Argument {
            name: "wait",
            form: Form::Option("TIME"),
            presence: Presence::Default("1s"),
            help: "How long it waits for replies after the last request of a pass: from 1ms to 5s",
        },
        Argument {
            name: "port",
            form: Form::Option("N"),
            presence: Presence::Default("137"),
            help: "The port at which it asks: from 1 to 65535",
        },
        Argument {
            name: "bind",
            form: Form::Option("ADDR"),
            presence: Presence::Default("0.0.0.0:0"),
            help: "The own address, by default at port 0, for which the system chooses one",
        },
        Argument {
            name: "sorted",
            form: Form::Flag,
            presence: Presence::Optional,
            help: "Prints the hosts by address, at the end; without it, each as its reply comes",
        },
        Argument {
            name: LONG,
            form: Form::Flag,
            presence: Presence::Optional,
            help: "Prints each name of a host below its line, as `nbt status` does",
        },
        Argument {
            name: HOSTS,
            form: Form::Flag,
            presence: Presence::Apart(LONG),
            help: "Prints lines for /etc/hosts instead",
        },
        Argument {
            name: JSON,
            form: Form::Flag,
            presence: Presence::ApartFrom(LONG, HOSTS),
            help: "Prints an object of JSON for each host instead",
        },
        Argument {
            name: "progress",
            form: Form::Flag,
            presence: Presence::Optional,
            help: "Says on standard error how far it is; given by itself where that is a terminal",
        },
    ],
    help: "\
Prints one line per host that replies: its address, its name, its workgroup or domain, who is logged in, `server` if it serves
files, and its unit id, mostly the address of a network card; `-` for what it doesn't tell. A name that can't be written in
characters is `hex:` and 32 digits. Each address is sent a node status request, N a second; those that don't reply are asked again
in a second pass, --tries passes in all. The first reply of a host counts.

ADDRESSES is a network as 192.0.2.0/24, of 16 to 32 bits and without its own address and its broadcast address if it has less
than 31; a range as 192.0.2.10-192.0.2.20 or 192.0.2.10-20; or A.B.C.D: in decimal with no leading zeros, and 65536 addresses in
all. Each is asked once, also if it is given twice. TIME is a whole number and its unit, as 500ms or 2s.

--hosts prints `192.0.2.7 FILER`, with the name of the file server, or else of the computer. A name that isn't a host's, of
letters, digits and hyphens, is left out. --json prints an object with the members address, computer, workgroup, user, server,
unit_id and names; what a host doesn't tell is null. With --json `device` and `memory` stand in an object too, as its member error.

--progress says once a second `nbt: asked 1500 of 65534 addresses, pass 1 of 2, 12 replied` on standard error, in one line, which
is hidden at the end.

Examples:
  nbt scan 192.0.2.0/24
  nbt scan 192.0.2.10-20 192.0.2.100 --sorted --long

Exit status:
  0  a host replied
  1  no host replied
  2  wrong usage, which standard output explains, or an invalid argument, which standard error explains
  3  no port or no clock, or a socket or the output failed; prints `device`, unless it was the output
  4  out of memory; prints `memory`",
};

/// The texts of the arguments of `scan`.
#[derive(Drop)]
pub struct ScanTexts<'a> {
    /// The networks, ranges and addresses.
    pub addresses: Vec<&'a str>,
    /// The number of requests in a second.
    pub rate: &'a str,
    /// The number of passes: `1`, `2` or `3`.
    pub tries: &'a str,
    /// How long it waits after a pass.
    pub wait: &'a str,
    /// The port that is asked.
    pub port: &'a str,
    /// The own address.
    pub bind: &'a str,
    /// Whether hosts are printed by address, at the end.
    pub sorted: bool,
    /// Whether their names are printed too.
    pub long: bool,
    /// Whether lines for /etc/hosts are printed.
    pub hosts: bool,
    /// Whether objects of JSON are printed.
    pub json: bool,
    /// Whether it says how far it is.
    pub progress: bool,
}

pub(crate) fn scan_texts<'a>(
    alloc: Global,
    matches: &ArgMatches<'a>,
) -> Result<ScanTexts<'a>, AllocError>
    ensures addresses { IfOk result (λ texts. map (λ text. text.now) texts.addresses.items ≡ arguments_of matches.now (codes "addresses")) }
    ensures rate { IfOk result (λ texts. texts.rate.now ≡ argument_of matches.now (codes "rate")) }
    ensures tries { IfOk result (λ texts. texts.tries.now ≡ argument_of matches.now (codes "tries")) }
    ensures wait { IfOk result (λ texts. texts.wait.now ≡ argument_of matches.now (codes "wait")) }
    ensures port { IfOk result (λ texts. texts.port.now ≡ argument_of matches.now (codes "port")) }
    ensures bind { IfOk result (λ texts. texts.bind.now ≡ argument_of matches.now (codes "bind")) }
    ensures sorts { IfOk result (λ texts. Tells matches.now (codes "sorted") texts.sorted) }
    ensures names { IfOk result (λ texts. Tells matches.now (codes "long") texts.long) }
    ensures lines { IfOk result (λ texts. Tells matches.now (codes "hosts") texts.hosts) }
    ensures objects { IfOk result (λ texts. Tells matches.now (codes "json") texts.json) }
    ensures progress { IfOk result (λ texts. Tells matches.now (codes "progress") texts.progress) }
{
    let addresses = arguments(alloc, matches, "addresses")?;
    Ok(ScanTexts {
        addresses,
        rate: argument(matches, "rate"),
        tries: argument(matches, "tries"),
        wait: argument(matches, "wait"),
        port: argument(matches, "port"),
        bind: argument(matches, "bind"),
        sorted: matches.get_flag("sorted"),
        long: matches.get_flag(LONG),
        hosts: matches.get_flag(HOSTS),
        json: matches.get_flag(JSON),
        progress: matches.get_flag("progress"),
    })
}
