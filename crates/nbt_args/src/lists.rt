//! The commands that read lists of names, `import` and `leases`, for people who run a network.

ghost use Rattle.std.specs.Prelude.{◌≡◌, IfOk, codes, map};
ghost use Rattle.std.specs.Option.{option_map};
ghost use Rattle.nbt_args.specs.Inner.Matches.{Tells, arguments_of, value_of};

use crate::argument::{Argument, Description, Form, Presence};
use crate::texts::arguments;
use clap::ArgMatches;
use std::alloc::{AllocError, Global};

pub static IMPORT: Description = Description {
    name: "import",
    about: "Makes a file for `nbns --fixed` of other programs' files",
    arguments: &[
        Argument {
            name: "files",
            form: Form::PlacedMany("FILE"),
            presence: Presence::Optional,
            help: "A file to import, or - for standard input, which is read without any",
        },
        Argument {
            name: "from",
            form: Form::OptionChoice("KIND", &["wins.dat", "lmhosts", "nbtscan", "list"]),
            presence: Presence::Optional,
            help: "What each FILE is; without it, the first line that tells decides",
        },
    ],
    help: "\
Prints the unique names of each FILE with their addresses, as `nbt nbns --fixed` reads them, a line each. Standard error says of each
FILE what it was taken for, and how many names were taken and left out. What is left out stands in the output as a remark, with the
number of its line and why:

  FILER#20 unique 192.0.2.7
  # line 3: OFFICE#1C group 192.0.2.1: a group, which its machines join by themselves

KIND is one of these. FILE has less than 128 MiB.
  wins.dat  what Samba's nmbd keeps as a WINS server; names whose time is over, or that were released, are left out
  lmhosts   as Windows and Samba read it; a name without a suffix is three, of 00, 03 and 20; another file that it includes isn't read
  nbtscan   its table, or what it prints with -s, also with -v; the user who is logged in isn't taken
  list      what `nbt nbns --leases` keeps; its times aren't looked at

Left out are groups, since a fixed name is refused to every other machine; addresses of no machine; further addresses of a name; names
with octets outside ASCII; and what goes beyond 65536 names. Letters become capitals, except those of nbtscan and of a list. After a
thousand remarks more are only counted.

Examples:
  nbt import /var/lib/samba/wins.dat > fixed.txt
  nbtscan -v -s : 192.0.2.0/24 | nbt import > fixed.txt

Exit status:
  0  done
  1  a FILE is of no KIND, and nothing is printed; or no name was taken
  2  wrong usage, which standard output explains
  3  a FILE can't be read, which standard error explains, or the output failed; prints `device`, unless it was the output
  4  out of memory; prints `memory`",
};

/// The option that prints objects of JSON.
const JSON: &str = "json";

pub static LEASES: Description = Description {
    name: "leases",
    about: "Prints the list of a name server's leases for people",
    arguments: &[
        Argument {
            name: "file",
            form: Form::Placed("FILE"),
            presence: Presence::Optional,
            help: "The list that `nbt nbns --leases` keeps; without it, or for -, standard input",
        },
        Argument {
            name: JSON,
            form: Form::Flag,
            presence: Presence::Optional,
            help: "Prints an object of JSON for each lease instead",
        },
    ],
    help: "\
Prints a table with one line per lease, in the order of the list: the name with its suffix, `unique` or `group`, the address, how long
the lease has left by this machine's clock, as `4m 58s` or `over`, its expiry, and what the suffix means in Microsoft's list, if it is
there. Of a list without leases it prints `no leases`.

--json prints an object per lease, with the members address, expires, kind, meaning, name and seconds_left; a meaning that the list
hasn't is null.

Examples:
  nbt leases /run/nbt-nbns/leases
  nbt leases --json < leases.txt | jq -r 'select(.seconds_left < 60).name'

Exit status:
  0  done
  1  FILE isn't such a list: standard error says which line isn't
  2  wrong usage, which standard output explains
  3  FILE can't be read, which standard error explains, or the output failed; prints `device`, unless it was the output
  4  out of memory; prints `memory`",
};

/// The texts of the arguments of `import`.
#[derive(Drop)]
pub struct ImportTexts<'a> {
    /// The paths of the files; none for standard input.
    pub files: Vec<&'a str>,
    /// The word of their kind, if it is given.
    pub from: Option<&'a str>,
}

/// The texts of the arguments of `leases`.
#[derive(Clone, Copy)]
pub struct LeasesTexts<'a> {
    /// The path of the list; `None` for standard input.
    pub file: Option<&'a str>,
    /// Whether objects of JSON are printed.
    pub json: bool,
}

pub(crate) fn import_texts<'a>(
    alloc: Global,
    matches: &ArgMatches<'a>,
) -> Result<ImportTexts<'a>, AllocError>
    ensures files { IfOk result (λ texts. map (λ text. text.now) texts.files.items ≡ arguments_of matches.now (codes "files")) }
    ensures from { IfOk result (λ texts. option_map (λ text. text.now) texts.from ≡ value_of matches.now (codes "from")) }
{
    let files = arguments(alloc, matches, "files")?;
    Ok(ImportTexts {
        files,
        from: matches.get_str("from"),
    })
}

pub(crate) fn leases_texts<'a>(matches: &ArgMatches<'a>) -> LeasesTexts<'a>
    ensures file { option_map (λ text. text.now) result.file ≡ value_of matches.now (codes "file") }
    ensures objects { Tells matches.now (codes "json") result.json }
{
    LeasesTexts {
        file: matches.get_str("file"),
        json: matches.get_flag(JSON),
    }
}
