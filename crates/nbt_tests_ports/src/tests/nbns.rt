//! A name server over this machine: its ports, its first line, and the files that it keeps.

use super::expect::{expect, expect_eq, expect_in};
use nbt_front::{FixedNames, Front};
use nbt_lease::Config;
use nbt_name::Addr;
use nbt_nbns::{
    Content, FilePlace, Manner, MemoryPlace, NbnsArguments, Place, run_nbns, write_begin,
    write_refusal, write_warning,
};
use nbt_port::{Bind, Fault, UdpPort};
use nbt_testing::config;
use std::fs::File;
use std::io::Write;
use std::net::Net;
use std::os::unix::fs::symlink;
use std::process::Abort;
use std::random::RandomSource;
use std::rt::Files;
use std::{env, fs, io, process, time};

const FIRST: Addr = Addr {
    ip: 0x7F000002,
    port: 137,
};

const SECOND: Addr = Addr {
    ip: 0x7F000003,
    port: 1024,
};

fn see_texts<R: Abort>(rt: &R, place: &mut MemoryPlace) {
    place.replace("one").expect(rt, "replaced");
    place.refuse(1);
    expect(rt, place.replace("two").is_err());
    place.replace("three").expect(rt, "replaced");
    expect(rt, place.texts().len() == 2);
    expect_eq(rt, &place.texts()[0].as_str(), &"one");
    expect_eq(rt, &place.texts()[1].as_str(), &"three");
}

#[test]
fn a_place_in_memory_keeps_each_text(rt: HostRuntime) {
    see_texts(&rt, &mut MemoryPlace::new(rt.alloc()))
}

/// A path in the folder for temporary files that no other test has.
fn path_for(rt: &HostRuntime, name: &str) -> Option<String> {
    let folder = env::temp_dir(rt).ok()?;
    let folder = folder.as_path().to_str()?;
    let id = process::id(rt.process());
    format!(in rt.alloc(); "{folder}/nbt-{id}-{name}").ok()
}

/// Replaces a file's text. Returns the one that it has then, and the one that is read by who had it open before.
fn replaced<R: Abort + AllocGlobal + Files<File = File>>(rt: &R, path: &str) -> (String, String) {
    let mut place = FilePlace::new(rt, rt.alloc(), Content::Leases, path).expect(rt, "a place");
    place
        .replace("# live leases of nbt nbns\none\n")
        .expect(rt, "replaced");
    let before = fs::open(rt, path).expect(rt, "open");
    place
        .replace("# live leases of nbt nbns\ntwo\n")
        .expect(rt, "replaced");
    let text = fs::read_to_string(rt, path).expect(rt, "its text");
    (
        text,
        io::read_to_string(rt.alloc(), before).expect(rt, "its text"),
    )
}

/// Whether there is a file of the path with this behind it.
fn is_there<R: Abort + AllocGlobal + Files>(rt: &R, path: &str, end: &str) -> bool {
    let path = format!(in rt.alloc(); "{path}{end}").expect(rt, "memory");
    fs::open(rt, path.as_str()).is_ok()
}

/// Whether a file of the path with this behind it can have a text.
fn can_be_replaced<R: Abort + AllocGlobal + Files>(rt: &R, path: &str, end: &str) -> bool {
    let path = format!(in rt.alloc(); "{path}{end}").expect(rt, "memory");
    let mut place = FilePlace::new(rt, rt.alloc(), Content::Leases, path.as_str()).expect(
        rt, "a place",
    );
    place.replace("one\n").is_ok()
}

#[test]
fn a_file_has_one_list_or_the_other(rt: HostRuntime) {
    let path = path_for(&rt, "one-or-the-other").expect(&rt, "a path");
    let (text, before) = replaced(&rt, path.as_str());
    expect_eq(
        &rt,
        &(text.as_str(), before.as_str()),
        &(
            "# live leases of nbt nbns\ntwo\n",
            "# live leases of nbt nbns\none\n",
        ),
    );
    // The new file has become the old one.
    expect(&rt, !is_there(&rt, path.as_str(), ".new"));
    fs::remove_file(&rt, path.as_str()).expect(&rt, "removed");
    expect(&rt, !can_be_replaced(&rt, path.as_str(), "/nowhere"));
}

/// A new list that an earlier server left beside the list is in no one's way; another file is.
#[test]
fn a_new_list_that_was_left_is_replaced(rt: HostRuntime) {
    let path = path_for(&rt, "left").expect(&rt, "a path");
    let beside = format!(in rt.alloc(); "{path}.new").expect(&rt, "memory");
    fs::write(
        &rt,
        beside.as_str(),
        "# live leases of nbt nbns\nlonger than the new one\n",
    )
    .expect(&rt, "written");
    let mut place = FilePlace::new(&rt, rt.alloc(), Content::Leases, path.as_str()).expect(
        &rt, "a place",
    );
    place
        .replace("# live leases of nbt nbns\none\n")
        .expect(&rt, "replaced");
    let text = fs::read_to_string(&rt, path.as_str()).expect(&rt, "its text");
    expect_eq(&rt, &text.as_str(), &"# live leases of nbt nbns\none\n");
    // Another file that came there since then stays.
    fs::write(&rt, path.as_str(), "not mine").expect(&rt, "written");
    expect(
        &rt,
        place.replace("# live leases of nbt nbns\ntwo\n").is_err(),
    );
    let text = fs::read_to_string(&rt, path.as_str()).expect(&rt, "its text");
    expect_eq(&rt, &text.as_str(), &"not mine");
    // No list can stand below a file.
    let below = format!(in rt.alloc(); "{path}/list").expect(&rt, "memory");
    let place = FilePlace::new(&rt, rt.alloc(), Content::Leases, below.as_str()).expect(
        &rt, "a place",
    );
    expect(&rt, place.taken().is_some());
    fs::remove_file(&rt, path.as_str()).expect(&rt, "removed");
}

/// Where a server over this machine is.
fn here(port: u16) -> Addr {
    Addr {
        ip: 0x7F2A1703,
        port,
    }
}

/// A front without networks and names.
fn open_front<R: Abort + AllocGlobal>(rt: &R) -> Front {
    let none = FixedNames::none(rt.alloc());
    Front::new(Vec::new(rt.alloc()), none, config(16).expect(rt, "limits"))
}

/// A server over this machine, at a port that no other test has, which ends after its first turn.
fn arguments<R: Abort + AllocGlobal>(rt: &R, port: u16, strict: bool) -> NbnsArguments {
    NbnsArguments {
        bind: Bind::To(vec![in rt.alloc(); here(port)].expect(rt, "memory")),
        config: config(16).expect(rt, "limits"),
        time: Some(0),
        log: true,
        broadcasts: false,
        log_rate: 10,
        leases: None,
        hosts: None,
        stats: None,
        strict,
        rows_per_client: 64,
        changes_per_client: 0,
        front: open_front(rt),
    }
}

/// The same, with its list of leases in the file of this path.
fn arguments_with_leases<R: Abort + AllocGlobal>(
    rt: &R,
    port: u16,
    strict: bool,
    path: &str,
) -> NbnsArguments {
    let mut arguments = arguments(rt, port, strict);
    arguments.leases = Some(String::from_str(rt.alloc(), path).expect(rt, "memory"));
    arguments
}

/// The same, with what it keeps in the file of this path.
fn arguments_with<R: Abort + AllocGlobal>(rt: &R, content: Content, path: &str) -> NbnsArguments {
    let mut arguments = arguments(rt, 0, false);
    let path = Some(String::from_str(rt.alloc(), path).expect(rt, "memory"));
    match content {
        Content::Leases => arguments.leases = path,
        Content::Hosts => arguments.hosts = path,
        Content::Stats => arguments.stats = path,
    }
    arguments
}

/// Runs a server. Returns how it ended, what it printed, and what it said of errors.
fn run<R: AllocGlobal + Net + time::Clock + RandomSource + Files>(
    rt: &R,
    arguments: &NbnsArguments,
) -> (Result<(), Fault>, Vec<u8>, Vec<u8>) {
    let mut printed = Vec::new(rt.alloc());
    let mut errors = Vec::new(rt.alloc());
    let ended = run_nbns(rt, rt.alloc(), arguments, &mut printed, &mut errors);
    (ended, printed, errors)
}

/// The first line has a time of day, which no test can foresee.
fn expect_begin<R: Abort>(rt: &R, printed: &[u8], before: &[u8]) {
    expect_eq(
        rt,
        &printed
            .strip_prefix(before)
            .expect(rt, "another line")
            .len(),
        &21,
    );
}

#[test]
fn a_server_over_this_machine(rt: HostRuntime) {
    let path = path_for(&rt, "leases").expect(&rt, "a path");
    for strict in [false, true] {
        let arguments = arguments_with_leases(&rt, 20_171, strict, path.as_str());
        let (ended, printed, errors) = run(&rt, &arguments);
        expect(&rt, ended.is_ok() && errors.is_empty());
        let before = b"serving 127.42.23.3:20171, silent for 60 s until ";
        expect_begin(&rt, printed.as_slice(), before);
        expect_eq(
            &rt,
            &fs::read_to_string(&rt, path.as_str())
                .expect(&rt, "its text")
                .as_str(),
            &"# live leases of nbt nbns\n",
        );
        fs::remove_file(&rt, path.as_str()).expect(&rt, "removed");
    }
}

#[test]
fn a_server_tells_the_port_that_it_got(rt: HostRuntime) {
    let (ended, printed, _) = run(&rt, &arguments(&rt, 0, false));
    expect(&rt, ended.is_ok());
    expect(&rt, printed.as_slice().starts_with(b"serving 127.42.23.3:"));
    expect(
        &rt,
        !printed.as_slice().starts_with(b"serving 127.42.23.3:0,"),
    );
}

#[test]
fn a_list_whose_file_can_not_be_had(rt: HostRuntime) {
    let path = path_for(&rt, "no-folder/leases").expect(&rt, "a path");
    let arguments = arguments_with_leases(&rt, 0, false, path.as_str());
    let (ended, _, errors) = run(&rt, &arguments);
    expect(&rt, ended.is_ok());
    let expected = format!(in rt.alloc();
        "nbt: {path} can't be written: No such file or directory (os error 2)\n"
    ).expect(&rt, "memory");
    expect_eq(&rt, &errors.as_slice(), &expected.as_bytes());
}

/// Whether a list at this path is refused before anything is served, for what stands at the path with this behind it.
fn is_refused<R: Abort + AllocGlobal + Net + time::Clock + RandomSource + Files>(
    rt: &R,
    path: &str,
    end: &str,
    why: &str,
) -> bool {
    is_content_refused(rt, Content::Leases, path, end, why)
}

/// The same of another file that is kept.
fn is_content_refused<R: Abort + AllocGlobal + Net + time::Clock + RandomSource + Files>(
    rt: &R,
    content: Content,
    path: &str,
    end: &str,
    why: &str,
) -> bool {
    let arguments = arguments_with(rt, content, path);
    let (ended, printed, errors) = run(rt, &arguments);
    let expected = format!(in rt.alloc(); "nbt: {path}{end} can't be written: {why}\n").expect(
        rt, "memory",
    );

    ended == Err(Fault::Output) && printed.is_empty() && errors.as_slice() == expected.as_bytes()
}

const ANOTHER: &str = "its first line isn't '# live leases of nbt nbns': name another file";

/// Whether a file of this text, which stands at a list's path or at that of the new file beside it, stays as it is.
fn stays<R: Abort + AllocGlobal + Net + time::Clock + RandomSource + Files>(
    rt: &R,
    path: &str,
    end: &str,
    text: &str,
) -> bool {
    let there = format!(in rt.alloc(); "{path}{end}").expect(rt, "memory");
    fs::write(rt, there.as_str(), text).expect(rt, "written");
    let refused = is_refused(rt, path, end, ANOTHER);
    let same = fs::read_to_string(rt, there.as_str())
        .expect(rt, "its text")
        .as_str()
        == text;
    fs::remove_file(rt, there.as_str()).expect(rt, "removed");
    refused && same
}

#[test]
fn a_list_replaces_nothing_but_a_list(rt: HostRuntime) {
    let device = is_refused(
        &rt,
        "/dev/null",
        "",
        "a device, a pipe or a socket is there",
    );
    expect(&rt, device);
    let folder = is_refused(&rt, "/tmp", "", "a folder is there");
    expect(&rt, folder);
    let path = path_for(&rt, "not-a-list").expect(&rt, "a path");
    let old = stays(
        &rt,
        path.as_str(),
        "",
        "FRED#20 unique 127.0.0.2 2026-11-24T09:13:03Z\n",
    );
    expect(&rt, old);
    let cut = stays(&rt, path.as_str(), "", "# live leases of nbt nbns");
    expect(&rt, cut);
    let other = stays(&rt, path.as_str(), "", "# live leases of nbt nbnt\n");
    expect(&rt, other);
    let empty_line = stays(&rt, path.as_str(), "", "\n");
    expect(&rt, empty_line);
    let beside = stays(&rt, path.as_str(), ".new", "not mine");
    expect(&rt, beside);
}

/// A kept file, its first line, one of another, and why that one is not replaced.
const FIRST_LINES: [(Content, &str, &str, &str); 3] = [
    (
        Content::Leases,
        "# live leases of nbt nbns\n",
        "# hosts of nbt nbns\n",
        "its first line isn't '# live leases of nbt nbns': name another file",
    ),
    (
        Content::Hosts,
        "# hosts of nbt nbns\n",
        "# live leases of nbt nbns\n",
        "its first line isn't '# hosts of nbt nbns': name another file",
    ),
    (
        Content::Stats,
        "# statistics of nbt nbns\n",
        "# hosts of nbt nbns\n192.0.2.7 FILER\n",
        "its first line isn't '# statistics of nbt nbns': name another file",
    ),
];

/// Whether a file is put in place of one of its own first line, and of no other.
fn replaces_its_own<R: Abort + AllocGlobal + Net + time::Clock + RandomSource + Files>(
    rt: &R,
    path: &str,
    row: &(Content, &str, &str, &str),
) -> bool {
    let (content, own, other, why) = row;
    fs::write(rt, path, *other).expect(rt, "written");
    let refused = is_content_refused(rt, *content, path, "", why);
    let stays = fs::read_to_string(rt, path).expect(rt, "its text").as_str() == *other;
    let old = format!(in rt.alloc(); "{own}old\n").expect(rt, "memory");
    fs::write(rt, path, old.as_str()).expect(rt, "written");
    let (ended, _, errors) = run(rt, &arguments_with(rt, *content, path));
    let text = fs::read_to_string(rt, path).expect(rt, "its text");
    let is_new = text.as_str().starts_with(*own) && text.as_str() != old.as_str();
    fs::remove_file(rt, path).expect(rt, "removed");
    refused && stays && ended.is_ok() && errors.is_empty() && is_new
}

#[test]
fn each_file_replaces_its_own_kind_alone(rt: HostRuntime) {
    let path = path_for(&rt, "own-kind").expect(&rt, "a path");
    for row in &FIRST_LINES {
        expect_in(&rt, &row.1, replaces_its_own(&rt, path.as_str(), row));
    }
}

#[test]
fn a_list_replaces_no_link(rt: HostRuntime) {
    let path = path_for(&rt, "link").expect(&rt, "a path");
    let there = path_for(&rt, "linked").expect(&rt, "a path");
    fs::write(&rt, there.as_str(), "").expect(&rt, "written");
    symlink(&rt, there.as_str(), path.as_str()).expect(&rt, "a link");
    let link = is_refused(&rt, path.as_str(), "", "a link is there");
    expect(&rt, link);
    // One that leads nowhere is a link too.
    fs::remove_file(&rt, there.as_str()).expect(&rt, "removed");
    let link = is_refused(&rt, path.as_str(), "", "a link is there");
    expect(&rt, link);
    fs::remove_file(&rt, path.as_str()).expect(&rt, "removed");
}

#[test]
fn a_list_replaces_an_empty_file(rt: HostRuntime) {
    let path = path_for(&rt, "empty").expect(&rt, "a path");
    fs::write(&rt, path.as_str(), "").expect(&rt, "written");
    let (ended, _, errors) = run(&rt, &arguments_with_leases(&rt, 0, false, path.as_str()));
    expect(&rt, ended.is_ok() && errors.is_empty());
    fs::remove_file(&rt, path.as_str()).expect(&rt, "removed");
}

#[test]
fn a_first_line_that_can_not_be_written(rt: HostRuntime) {
    let mut room = [0; 8];
    let mut short = &mut room[..];
    let mut errors = Vec::new(rt.alloc());
    expect_eq(
        &rt,
        &run_nbns(
            &rt,
            rt.alloc(),
            &arguments(&rt, 0, false),
            &mut short,
            &mut errors,
        ),
        &Err(Fault::Output),
    );
    expect_eq(
        &rt,
        &errors.as_slice(),
        &b"nbt: the first line can't be written: failed to write whole buffer\n".as_slice(),
    );
}

#[test]
fn a_port_that_can_not_be_had(rt: HostRuntime) {
    let arguments = arguments(&rt, 20_172, false);
    let _taken = UdpPort::bind(&rt, here(20_172)).expect(&rt, "bound");
    let (ended, printed, errors) = run(&rt, &arguments);
    expect_eq(&rt, &ended, &Err(Fault::NoPort));
    expect(&rt, printed.is_empty());
    expect_eq(
        &rt,
        &errors.as_slice(),
        &b"nbt: 127.42.23.3:20172: Address already in use (os error 98)\n".as_slice(),
    );
}

/// A writer that counts what was written, and what of it was flushed.
#[derive(Drop)]
struct Paper {
    written: usize,
    flushed: usize,
}

impl Write for Paper {
    fn write(&mut self, buf: &[u8]) -> io::Result<usize> {
        self.written = self.written.saturating_add(buf.len());
        Ok(buf.len())
    }

    fn flush(&mut self) -> io::Result<()> {
        self.flushed = self.written;
        Ok(())
    }
}

#[test]
fn the_first_line_is_flushed(rt: HostRuntime) {
    let arguments = arguments(&rt, 0, false);
    let mut paper = Paper {
        written: 0,
        flushed: 0,
    };
    let mut errors = Vec::new(rt.alloc());
    run_nbns(&rt, rt.alloc(), &arguments, &mut paper, &mut errors).expect(&rt, "run nbns");
    expect(&rt, paper.written > 0);
    expect_eq(&rt, &paper.flushed, &paper.written);
}

fn write_first(rt: &impl Abort, text: &mut String) {
    write_begin(&[FIRST], Manner::Starts(300, 1_795_511_823), text).expect(rt, "a first line");
    write_begin(&[FIRST, SECOND], Manner::Starts(20, 1_795_511_823), text).expect(
        rt,
        "a first line",
    );
    write_refusal(Config::new(1_500, 20, 1).expect(rt, "limits"), text).expect(rt, "write refusal");
    text.push_str("\n").expect(rt, "memory");
    write_warning(Config::new(1_000, 7_200, 1).expect(rt, "limits"), text).expect(
        rt,
        "write warning",
    );
}

#[test]
fn what_is_said_at_first(rt: HostRuntime) {
    let mut text = String::new(rt.alloc());
    write_first(&rt, &mut text);
    expect_eq(
        &rt,
        &text.as_str(),
        &"serving 127.0.0.2:137, silent for 300 s until 2026-11-24T09:17:03Z\nserving 127.0.0.2:137, 127.0.0.3:1024, silent for 20 s until 2026-11-24T09:17:03Z\nlongest lease 20 s, life of a datagram 1500 ms: it has to be 30 s and 20 lives at least, else a hold would lapse before it can be refreshed\nlongest lease 7200 s: after each start the server is silent for as long",
    );
}
