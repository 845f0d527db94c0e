//! The commands `import` and `leases`: what time and the number of names decide, and files of the system. Which names a file says is in
//! the cases of nbt_cases.

use super::LimitedWriter;
use super::ending::{expect_printed, status_of};
use super::expect::{expect, expect_eq};
use nbt_front::read_fixed;
use nbt_lists::{Import, REMARKS_MOST, read_list, write_objects, write_table};
use nbt_name::{Kind, Name};
use std::fs::File;
use std::net::Net;
use std::process::Abort;
use std::random::RandomSource;
use std::rt::Files;
use std::time::Clock;
use std::{env, fs, process};

/// A wins.dat of a name whose time never ends, of one whose time ends at the second 1,000, and of one that was released before.
const TIMES: &[u8] =
    b"VERSION 1 0\n\"EVER#20\" 0 192.0.2.1 64R\n\"FRED#20\" 1000 192.0.2.2 64R\n\"GONE#20\" 5000 192.0.2.3 74R\n";

/// What is made of it at a second: while FRED's time goes on, and once it is over.
static IMPORTED: [(Option<u64>, &str); 4] = [
    (None, LIVES),
    (Some(0), LIVES),
    (Some(999), LIVES),
    (Some(1000), OVER),
];

const OVER: &str =
    "# by nbt import, of wins.dat\nEVER#20 unique 192.0.2.1\n# line 3: its time is over\n# line 4: released, or in conflict\n";

const LIVES: &str =
    "# by nbt import, of wins.dat\nEVER#20 unique 192.0.2.1\nFRED#20 unique 192.0.2.2\n# line 4: released, or in conflict\n";

/// A list, the second of its first row's end, and what is printed of it so many seconds before that, or where the clock can't be read.
const LIST: &[u8] =
    b"# live leases of nbt nbns\nFILER#20 unique 192.0.2.7 2026-11-24T09:17:03Z\nOFFICE#99 group 192.0.2.19 2026-11-24T09:17:04Z\n";

const END: u64 = 1_795_511_823;

static TABLES: [(Option<u64>, &str, &str); 6] = [
    (Some(END - 298), "4m 58s ", "4m 59s "),
    (Some(END - 59), "59s    ", "1m 0s  "),
    (Some(END), "over   ", "1s     "),
    (Some(END - 86_399), "23h 59m", "1d 0h  "),
    (Some(END + 1), "over   ", "over   "),
    (None, "-      ", "-      "),
];

/// The objects of that list at a second, and where the clock can't be read.
static OBJECTS: [(Option<u64>, &str); 2] = [
    (
        Some(END - 298),
        "{\"address\":\"192.0.2.7\",\"expires\":\"2026-11-24T09:17:03Z\",\"kind\":\"unique\",\"meaning\":\"file server\",\"name\":\"FILER#20\",\"seconds_left\":298}
{\"address\":\"192.0.2.19\",\"expires\":\"2026-11-24T09:17:04Z\",\"kind\":\"group\",\"meaning\":null,\"name\":\"OFFICE#99\",\"seconds_left\":299}\n",
    ),
    (
        None,
        "{\"address\":\"192.0.2.7\",\"expires\":\"2026-11-24T09:17:03Z\",\"kind\":\"unique\",\"meaning\":\"file server\",\"name\":\"FILER#20\",\"seconds_left\":null}
{\"address\":\"192.0.2.19\",\"expires\":\"2026-11-24T09:17:04Z\",\"kind\":\"group\",\"meaning\":null,\"name\":\"OFFICE#99\",\"seconds_left\":null}\n",
    ),
];

/// What is made of a file at a second.
fn imported<R: Abort + AllocGlobal>(rt: &R, text: &[u8], now: Option<u64>) -> String {
    let mut import = Import::new(rt.alloc());
    expect(rt, &now, import.add(text, None, now).is_ok());
    import.finish().ok().expect(rt, "what was made")
}

/// The reader of fixed names finds EVER and FRED in what was made, and no other name.
fn expect_names<R: Abort + AllocGlobal>(rt: &R, text: &str) {
    let names = read_fixed(rt.alloc(), text.as_bytes())
        .ok()
        .expect(rt, "names");
    expect_eq(rt, &text, &names.len(), &2);
    for (octets, addr) in [
        (b"EVER            ", 0xC0000201u32),
        (b"FRED            ", 0xC0000202),
    ] {
        let name = Name::new(octets, b"").ok().expect(rt, "a name");
        let fixed = names.get(&name).expect(rt, "what is fixed");
        expect(rt, &text, fixed.kind() == Kind::Unique);
        expect(rt, &text, fixed.addrs() == [addr].as_slice());
    }
}

#[test]
fn what_time_leaves_of_files(rt: HostRuntime) {
    for (now, wanted) in &IMPORTED {
        let text = imported(&rt, TIMES, *now);
        expect_eq(&rt, now, &text.as_str(), wanted);
    }
    expect_names(&rt, imported(&rt, TIMES, None).as_str());
    let rows = read_list(rt.alloc(), LIST).ok().expect(&rt, "rows");
    let mut text = String::new(rt.alloc());
    for (now, first, second) in &TABLES {
        let wanted = format!(in rt.alloc();
            "NAME       KIND    ADDRESS          LEFT     EXPIRES               MEANING\nFILER#20   unique  192.0.2.7        {first}  2026-11-24T09:17:03Z  file server\nOFFICE#99  group   192.0.2.19       {second}  2026-11-24T09:17:04Z\n"
        ).expect(&rt, "a table");
        text.clear();
        write_table(rows.as_slice(), *now, &mut text).expect(&rt, "a table");
        expect_eq(&rt, now, &text.as_str(), &wanted.as_str());
    }
    for (now, wanted) in &OBJECTS {
        text.clear();
        write_objects(rows.as_slice(), *now, &mut text).expect(&rt, "objects");
        expect_eq(&rt, now, &text.as_str(), wanted);
    }
}

/// A file of 65,600 names, of as many lines that are none, and of a name that a second line has again.
#[test]
fn names_and_remarks_are_limited(rt: HostRuntime) {
    let alloc = rt.alloc();
    let mut text = String::new(alloc);
    for number in 0..65_600u32 {
        writeln!(text, "192.0.2.7:N{number}:20U").expect(&rt, "a line");
        writeln!(text, "192.0.2.7:N{number}").expect(&rt, "a line");
    }
    let mut import = Import::new(alloc);
    let added = import
        .add(text.as_bytes(), None, None)
        .ok()
        .expect(&rt, "what was added");
    expect_eq(&rt, &"taken", &added.taken, &65_536);
    expect_eq(&rt, &"left", &added.left, &(65_600 + 64));
    let made = import.finish().ok().expect(&rt, "what was made");
    let lines = made.as_bytes().split(|octet| *octet == b'\n').count();
    expect_eq(&rt, &"lines", &lines, &(1 + 65_536 + REMARKS_MOST + 1));
    let names = read_fixed(alloc, made.as_bytes()).ok().expect(&rt, "names");
    expect_eq(&rt, &"names", &names.len(), &65_536);
}

/// What the commands make of a file of the system, whose path is their last word, and what they say of it.
static FILES: [(&str, &[u8], u8, &str, &str); 6] = [
    (
        "nbt import",
        TIMES,
        0,
        OVER,
        ": wins.dat: names taken: 1, left out: 2\n",
    ),
    (
        "nbt import --from nbtscan",
        b"192.0.2.7 FILER",
        1,
        "# by nbt import, of nbtscan\n# line 1: no line of such a file\n",
        ": nbtscan: names taken: 0, left out: 1\n",
    ),
    (
        "nbt import",
        b"\x00\xff",
        1,
        "",
        ": no line as in wins.dat, lmhosts, nbtscan's output or a list; --from says what it is\n",
    ),
    (
        "nbt leases",
        TIMES,
        1,
        "",
        ": line 1: not the first line of a list, # live leases of nbt nbns\n",
    ),
    (
        "nbt leases --json",
        b"# live leases of nbt nbns\n",
        0,
        "",
        "",
    ),
    (
        "nbt leases",
        b"# live leases of nbt nbns\n",
        0,
        "no leases\n",
        "",
    ),
];

/// The command ends so, and says this of the file of that path.
fn expect_file<R: Abort + AllocGlobal, M: Net + Clock + RandomSource + Files<File = File>>(
    rt: &R,
    machine: &M,
    row: (&str, u8, &str, &str),
    path: &str,
) {
    let (line, status, text, said) = row;
    let mut paper = LimitedWriter::new();
    let mut errors = LimitedWriter::new();
    let got = status_of(rt, machine, line, path, &mut paper, &mut errors);
    expect_printed(rt, &row, got, &paper, status, text.as_bytes());
    let mut wanted = String::new(rt.alloc());
    if !said.is_empty() {
        write!(wanted, "nbt: {path}{said}").expect(rt, "memory");
    }
    expect_eq(rt, &row, &errors.text.as_slice(), &wanted.as_bytes());
}

/// The file is in the folder for temporary files, where no other run of the tests has one.
#[test]
fn files_of_the_system(rt: HostRuntime) {
    let folder = env::temp_dir(&rt).expect(&rt, "a folder for temporary files");
    let folder = folder.as_path().to_str().expect(&rt, "a folder as text");
    let id = process::id(rt.process());
    let path = format!(in rt.alloc(); "{folder}/nbt-tests-{id}-listed").expect(&rt, "memory");
    for (line, text, status, printed, said) in &FILES {
        fs::write(&rt, path.as_str(), *text).expect(&rt, "a file");
        expect_file(&rt, &rt, (*line, *status, *printed, *said), path.as_str());
    }
    fs::remove_file(&rt, path.as_str()).expect(&rt, "the file");
    let none = ": No such file or directory (os error 2)\n";
    for line in ["nbt import", "nbt leases"] {
        expect_file(&rt, &rt, (line, 3, "device\n", none), "/proc/no-such-file");
    }
    let long = ": it is too long\n";
    expect_file(&rt, &rt, ("nbt import", 3, "device\n", long), "/dev/zero");
}
