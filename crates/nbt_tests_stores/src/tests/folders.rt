//! Folders of this system that keep a server's leases: which file has them, who may use one, and what is said of one that can't be used.

use super::expect::{expect, expect_eq, expect_eq_in, expect_in};
use super::following::machine_refusing;
use super::store::renew;
use nbt_front::{FixedNames, Front};
use nbt_lease::{Config, Lease, Moment, ROWS_MOST};
use nbt_name::{Addr, Kind, Name};
use nbt_nbns::{Folder, FolderStore, NbnsArguments, ServerArguments, StateFolder, run_server};
use nbt_port::{Bind, Fault};
use nbt_store::{
    Boot, Broken, Change, Disk, DiskStore, Header, Room, Store, SystemDisk, leases_at, load,
    this_boot,
};
use nbt_testing::config;
use std::fs::File;
use std::net::Net;
use std::os::unix::fs::symlink;
use std::process::Abort;
use std::random::RandomSource;
use std::rt::Files;
use std::{env, fs, io, process, time};

/// A path in the folder for temporary files that no other test has.
pub fn path_for(rt: &HostRuntime, name: &str) -> Option<String> {
    let folder = env::temp_dir(rt).ok()?;
    let folder = folder.as_path().to_str()?;
    let id = process::id(rt.process());
    format!(in rt.alloc(); "{folder}/nbt-{id}-{name}").ok()
}

/// The path of a file of a folder.
pub fn path_in<R: Abort + AllocGlobal + Files>(rt: &R, folder: &str, name: &str) -> String {
    format!(in rt.alloc(); "{folder}/{name}").expect(rt, "memory")
}

/// The text of a file of a folder; none where there is no such file.
pub fn text_in<R: Abort + AllocGlobal + Files>(rt: &R, folder: &str, name: &str) -> Option<String> {
    let path = path_in(rt, folder, name);
    fs::read_to_string(rt, path.as_str()).ok()
}

pub fn row(rt: &impl Abort) -> (Name, Lease) {
    let lease = Lease {
        addr: 0x7F00_0002,
        kind: Kind::Unique,
        end: 60_000,
    };
    (
        Name::new(b"FRED            ", b"").expect(rt, "a name"),
        lease,
    )
}

pub fn header(rt: &impl Abort) -> Header {
    let boot = Boot::new(b"boot-1").expect(rt, "a boot");
    let now = Moment::new(5).expect(rt, "a moment");
    Header::new(
        Config::new(1_000, 60, 16).expect(rt, "limits"),
        boot,
        0,
        now,
        now,
        1,
    )
}

/// The lines of the file of leases of a folder.
fn lines_in<R: Abort + AllocGlobal + Files>(rt: &R, folder: &str) -> Vec<u8> {
    let path = path_in(rt, folder, "leases");
    leases_at(rt, rt.alloc(), path.as_str(), ROWS_MOST)
        .expect(rt, "read")
        .expect(rt, "a file")
}

/// How many leases the file of a folder has.
fn kept<R: Abort + AllocGlobal + Files>(rt: &R, folder: &str) -> usize {
    load(rt.alloc(), lines_in(rt, folder).as_slice())
        .expect(rt, "load")
        .rows
        .len()
}

/// More changes of a lease than a short file has, and than 64 KiB hold.
const MANY: usize = 2_000;

/// The lease moves so often that the file is long. Where a new file can't be written, since a device is there, the store says why it
/// failed.
fn expect_long<R: Abort + AllocGlobal + Files + time::Clock>(
    rt: &R,
    folder: &str,
    store: &mut FolderStore<'_, R>,
) {
    let rows = [row(rt)];
    expect(rt, !store.is_long());
    for _ in 0..MANY {
        let (name, lease) = row(rt);
        let (addr, end) = (lease.addr, lease.end);
        store
            .append(&Change::Moved {
                name,
                addr,
                end,
                at: 5,
            })
            .expect(rt, "memory");
    }
    store.sync().expect(rt, "sync");
    expect(rt, store.is_long());
    expect(rt, store.error().is_none());
    symlink(rt, "/dev/full", path_in(rt, folder, "leases.new").as_str()).expect(rt, "a link");
    expect_eq(
        rt,
        &renew(rt.alloc(), store, &header(rt), &rows),
        &Err(Broken),
    );
    match store.error() {
        Some(error) => {
            let said = format!(in rt.alloc(); "{error}").expect(rt, "memory");
            expect_eq(rt, &said.as_str(), &"leases.new is no regular file");
        }
        None => expect(rt, false),
    }
}

/// The lease of a store goes, and begins again in a file that is written anew.
fn expect_changes<R: Abort + AllocGlobal + Files<File = File> + time::Clock>(
    rt: &R,
    folder: &str,
    store: &mut FolderStore<'_, R>,
    rows: &[(Name, Lease)],
) {
    let (name, lease) = row(rt);
    let addr = lease.addr;
    expect_eq(rt, &kept(rt, folder), &1);
    store
        .append(&Change::Released { name, addr, at: 5 })
        .expect(rt, "memory");
    expect_eq(rt, &kept(rt, folder), &1);
    store.sync().expect(rt, "sync");
    expect_eq(rt, &kept(rt, folder), &0);
    store
        .append(&Change::Reached { at: 6 })
        .expect(rt, "memory");
    renew(rt.alloc(), store, &header(rt), rows).expect(rt, "renew");
    store.sync().expect(rt, "sync");
    expect_eq(rt, &kept(rt, folder), &1);
    expect(rt, text_in(rt, folder, "leases.new").is_none());
}

/// Nobody else may use the folder.
fn expect_used<R: Abort + AllocGlobal + Files<File = File>>(rt: &R, folder: &str) {
    match SystemDisk::open_folder(rt, rt.alloc(), folder).err() {
        Some(error) => expect(rt, error.kind() == io::ErrorKind::WouldBlock),
        None => expect(rt, false),
    }
}

/// A store of a folder that has no file yet, with a lease.
fn open_new<'a, R: Abort + AllocGlobal + Files<File = File> + time::Clock>(
    rt: &'a R,
    folder: &'a str,
    rows: &[(Name, Lease)],
) -> FolderStore<'a, R> {
    let disk = SystemDisk::open_folder(rt, rt.alloc(), folder).expect(rt, "open folder");
    expect(
        rt,
        disk.read(rt.alloc(), ROWS_MOST)
            .expect(rt, "read")
            .is_none(),
    );
    FolderStore::open(disk, rt.alloc(), &header(rt), rows).expect(rt, "open")
}

fn expect_kept<R: Abort + AllocGlobal + Files<File = File> + time::Clock>(rt: &R, folder: &str) {
    let rows = [row(rt)];
    let mut store = open_new(rt, folder, &rows);
    expect_changes(rt, folder, &mut store, &rows);
    expect_used(rt, folder);
    expect_long(rt, folder, &mut store)
}

/// This text of a file can't be loaded, and is set aside, in place of what was set aside before.
fn set_aside<R: Abort + AllocGlobal + Files<File = File>>(
    rt: &R,
    folder: &str,
    disk: &mut SystemDisk<'_, R>,
    text: &str,
) {
    fs::write(rt, path_in(rt, folder, "leases").as_str(), text).expect(rt, "written");
    disk.set_aside().expect(rt, "set aside");
    expect(
        rt,
        disk.read(rt.alloc(), ROWS_MOST)
            .expect(rt, "read")
            .is_none(),
    );
    let aside = text_in(rt, folder, "leases.bad").expect(rt, "a file aside");
    expect_eq(rt, &aside.as_str(), &text);
}

/// All of a long file is read.
fn expect_read<R: Abort + AllocGlobal + Files<File = File>>(rt: &R, disk: &SystemDisk<'_, R>) {
    let octets = disk
        .read(rt.alloc(), ROWS_MOST)
        .expect(rt, "read")
        .expect(rt, "a file");
    expect(rt, octets.len() > 65_536);
    let loaded = load(rt.alloc(), octets.as_slice()).expect(rt, "load");
    expect_eq(rt, &loaded.rows.len(), &1);
}

fn expect_aside<R: Abort + AllocGlobal + Files<File = File>>(rt: &R, folder: &str) {
    let mut disk = SystemDisk::open_folder(rt, rt.alloc(), folder).expect(rt, "open folder");
    expect_read(rt, &disk);
    set_aside(rt, folder, &mut disk, "one");
    set_aside(rt, folder, &mut disk, "two")
}

#[test]
fn a_folder_keeps_leases(rt: HostRuntime) {
    let folder = path_for(&rt, "folder").expect(&rt, "a path");
    fs::create_dir(&rt, folder.as_str()).expect(&rt, "a folder");
    expect_kept(&rt, folder.as_str());
    expect_aside(&rt, folder.as_str());
    fs::remove_dir_all(&rt, folder.as_str()).expect(&rt, "removed");
}

/// The id is that of this boot, as long as it lasts.
#[test]
fn the_boot_of_this_machine(rt: HostRuntime) {
    let text = fs::read_to_string(&rt, "/proc/sys/kernel/random/boot_id").expect(&rt, "its text");
    for _ in 0..2 {
        let boot = this_boot(&rt, rt.alloc())
            .expect(&rt, "this boot")
            .expect(&rt, "a boot");
        expect_eq(&rt, &boot.octets(), &text.as_str().trim_end().as_bytes());
    }
}

/// What stands in a folder before a server starts over it.
#[derive(Clone, Copy, Debug)]
enum There {
    /// There is no folder.
    NoFolder,
    /// A file is there.
    File,
    /// Nothing does.
    Nothing,
    /// Another has it.
    Used,
    /// A folder of this name.
    Folder(&'static str),
    /// A link of this name, to what isn't there.
    Link(&'static str),
    /// This is the text of its file of leases.
    Leases(&'static str),
    /// The same, and a folder is where it is to be set aside.
    LeasesAndFolder(&'static str),
}

/// What comes of a server that starts over a folder.
#[derive(Clone, Copy, Debug)]
enum Comes {
    /// It ends, and this is said, the path of the folder being between the two.
    Ends(&'static str, &'static str),
    /// It begins anew. Its first line ends so, and this text is set aside.
    Begins(&'static str, Option<&'static str>),
    /// It goes on. Its first line has this text, and nothing is set aside.
    GoesOn(&'static str),
}

const OTHER_VERSION: &str = "nbt leases, version 1\n1000 60\n";

const NO_HEADER: &str = "nbt leases, version 3\n1000 60\n";

/// A file of a server with a longest lease of 300 s, of which the third line is none.
const LONGER: &str =
    "nbt leases, version 3\n1000 300 4096 dc20cc8a-d62e-419a-bf2b-a765f4dedd69 0 3070565 3070565 1795823748362 0 8d3c3b38\ngarbage\n";

const CUT: &str = "nbt leases, versi";

/// The file of another boot whose time of day was long ago, one whose time of day is yet to come and that has a lease, and one of the older
/// form. The silence of their servers was over.
const OLD: &str =
    "nbt leases, version 3\n1000 60 16 another-boot 0 0 100000 1700000000000 0 84809ce7\n";

const OF_LATER: &str = "nbt leases, version 3\n\
1000 60 16 another-boot 0 0 100000 4000000000000 1 ec38cef8\n\
began FRED 127.0.0.2:137 - unique 150000 100000 0fdd1e8b\n";

const OLDER_FORM: &str =
    "nbt leases, version 2\n1000 60 16 another-boot 0 0 100000 4000000000000 0 ec38cef7\n";

static BEGINS: [(There, Comes); 18] = [
    (
        There::NoFolder,
        Comes::Ends(
            "nbt: ",
            ": the folder can't be used: No such file or directory (os error 2)\n",
        ),
    ),
    (
        There::File,
        Comes::Ends(
            "nbt: ",
            ": the folder can't be used: Not a directory (os error 20)\n",
        ),
    ),
    (
        There::Folder("lock"),
        Comes::Ends(
            "nbt: ",
            ": the folder can't be used: lock is no regular file\n",
        ),
    ),
    (
        There::Link("lock"),
        Comes::Ends(
            "nbt: ",
            ": the folder can't be used: lock is no regular file\n",
        ),
    ),
    (
        There::Folder("leases"),
        Comes::Ends(
            "nbt: ",
            ": the leases can't be read: leases is no regular file\n",
        ),
    ),
    (
        There::Link("leases"),
        Comes::Ends(
            "nbt: ",
            ": the leases can't be read: leases is no regular file\n",
        ),
    ),
    (
        There::Folder("leases.new"),
        Comes::Ends(
            "nbt: ",
            ": the leases can't be kept: leases.new is no regular file\n",
        ),
    ),
    (
        There::Link("leases.new"),
        Comes::Ends(
            "nbt: ",
            ": the leases can't be kept: leases.new is no regular file\n",
        ),
    ),
    (
        There::LeasesAndFolder(NO_HEADER),
        Comes::Ends(
            "nbt: ",
            ": the old leases can't be set aside: Is a directory (os error 21)\n",
        ),
    ),
    (
        There::Leases(LONGER),
        Comes::Ends(
            "nbt: ",
            ": a lease that was kept under a longer LONGEST may outlast a silence of 60 s (was 300 s): start with that LONGEST, or remove leases there when it has passed\n",
        ),
    ),
    (There::Used, Comes::Ends("nbt: another server uses ", "\n")),
    (
        There::Nothing,
        Comes::Begins("Z, since nothing was kept\n", None),
    ),
    (
        There::Leases(CUT),
        Comes::Begins("Z, since nothing was kept\n", None),
    ),
    (
        There::Leases(OTHER_VERSION),
        Comes::Begins("Z, since another version\n", Some(OTHER_VERSION)),
    ),
    (
        There::Leases(NO_HEADER),
        Comes::Begins("Z, since damaged at line 2\n", Some(NO_HEADER)),
    ),
    (
        There::Leases(OLD),
        Comes::Begins("Z, since the kept leases are over\n", None),
    ),
    (
        There::Leases(OLDER_FORM),
        Comes::Begins("Z, since kept by an older version\n", None),
    ),
    (
        There::Leases(OF_LATER),
        Comes::GoesOn(", with 1 lease kept, silent for 1 s until "),
    ),
];

/// Puts what is to stand in a folder.
fn put<R: Abort + AllocGlobal + Files>(rt: &R, folder: &str, there: There) {
    match there {
        There::NoFolder => return,
        There::File => return fs::write(rt, folder, "a file").expect(rt, "written"),
        _ => fs::create_dir(rt, folder).expect(rt, "a folder"),
    }
    match there {
        There::Folder(name) => put_folder(rt, folder, name),
        There::Link(name) => symlink(rt, "nowhere", path_in(rt, folder, name).as_str()).expect(
            rt, "a link",
        ),
        There::Leases(text) => put_leases(rt, folder, text),
        There::LeasesAndFolder(text) => {
            put_leases(rt, folder, text);
            put_folder(rt, folder, "leases.bad")
        }
        _ => (),
    }
}

/// Puts a folder into a folder.
fn put_folder<R: Abort + AllocGlobal + Files>(rt: &R, folder: &str, name: &str) {
    fs::create_dir(rt, path_in(rt, folder, name).as_str()).expect(rt, "a folder")
}

/// Puts a file of leases there.
fn put_leases<R: Abort + AllocGlobal + Files>(rt: &R, folder: &str, text: &str) {
    fs::write(rt, path_in(rt, folder, "leases").as_str(), text).expect(rt, "written")
}

/// A server over a folder of this machine, at a port that no other test has, which ends after its first turn.
fn arguments<R: Abort + AllocGlobal>(rt: &R, folder: &str) -> ServerArguments {
    let here = Addr {
        ip: 0x7F2A_1707,
        port: 20_197,
    };
    let none = FixedNames::none(rt.alloc());
    ServerArguments {
        nbns: NbnsArguments {
            bind: Bind::To(vec![in rt.alloc(); here].expect(rt, "memory")),
            config: config(16).expect(rt, "limits"),
            time: Some(0),
            log: false,
            broadcasts: false,
            log_rate: 10,
            leases: None,
            hosts: None,
            stats: None,
            strict: false,
            rows_per_client: 64,
            changes_per_client: 0,
            front: Front::new(Vec::new(rt.alloc()), none, config(16).expect(rt, "limits")),
        },
        state: Some(StateFolder {
            path: String::from_str(rt.alloc(), folder).expect(rt, "memory"),
            silent_after_boot: false,
        }),
    }
}

/// Runs it. Returns how it ended, what it printed, and what it said.
fn run<R: Abort + AllocGlobal + Net + time::Clock + RandomSource + Files<File = File>>(
    rt: &R,
    folder: &str,
) -> (Result<Folder, Fault>, Vec<u8>, Vec<u8>) {
    let mut printed = Vec::new(rt.alloc());
    let mut errors = Vec::new(rt.alloc());
    let arguments = arguments(rt, folder);
    let ended = run_server(rt, rt.alloc(), &arguments, &mut printed, &mut errors);
    (ended, printed, errors)
}

/// The same, while another has the folder or not.
fn run_at<R: Abort + AllocGlobal + Net + time::Clock + RandomSource + Files<File = File>>(
    rt: &R,
    folder: &str,
    there: There,
) -> (Result<Folder, Fault>, Vec<u8>, Vec<u8>) {
    match there {
        There::Used => {
            let _other = SystemDisk::open_folder(rt, rt.alloc(), folder).expect(rt, "open folder");
            run(rt, folder)
        }
        _ => run(rt, folder),
    }
}

/// What was said has the path of the folder between these two, and nothing was printed.
fn expect_end<R: Abort + AllocGlobal>(
    rt: &R,
    row: &(There, Comes),
    folder: &str,
    before: &str,
    after: &str,
    came: &(Result<Folder, Fault>, Vec<u8>, Vec<u8>),
) {
    let said = format!(in rt.alloc(); "{before}{folder}{after}").expect(rt, "memory");
    let end = if matches!(row.0, There::Used) {
        Ok(Folder::Held)
    } else {
        Err(Fault::Store)
    };
    expect_eq_in(rt, row, &came.0, &end);
    expect_eq_in(rt, row, &came.1.len(), &0);
    expect_eq_in(rt, row, &came.2.as_slice(), &said.as_bytes());
}

/// This text is set aside.
fn expect_aside_is<R: Abort + AllocGlobal + Files>(
    rt: &R,
    row: &(There, Comes),
    folder: &str,
    aside: Option<&str>,
) {
    let text = text_in(rt, folder, "leases.bad");
    expect_eq_in(rt, row, &text.as_ref().map(|text| text.as_str()), &aside);
}

fn expect_row<R: Abort + AllocGlobal + Net + time::Clock + RandomSource + Files<File = File>>(
    rt: &R,
    row: &(There, Comes),
    folder: &str,
) {
    put(rt, folder, row.0);
    let came = run_at(rt, folder, row.0);
    match row.1 {
        Comes::Ends(before, after) => expect_end(rt, row, folder, before, after, &came),
        Comes::Begins(since, aside) => {
            expect_eq_in(rt, row, &came.0, &Ok(Folder::Own));
            expect(rt, came.1.as_slice().ends_with(since.as_bytes()));
            expect_eq_in(rt, row, &came.2.len(), &0);
            expect_aside_is(rt, row, folder, aside);
        }
        Comes::GoesOn(has) => {
            expect_eq_in(rt, row, &came.0, &Ok(Folder::Own));
            let line = str::from_utf8(came.1.as_slice()).ok();
            expect(rt, line.is_some_and(|line| line.contains(has)));
            expect_eq_in(rt, row, &came.2.len(), &0);
            expect_aside_is(rt, row, folder, None);
        }
    }
}

#[test]
fn what_a_server_finds_in_a_folder(rt: HostRuntime) {
    let folder = path_for(&rt, "found").expect(&rt, "a path");
    for row in &BEGINS {
        expect_row(&rt, row, folder.as_str());
        // (a row may have no folder, or a file there)
        let _ = fs::remove_dir_all(&rt, folder.as_str());
        let _ = fs::remove_file(&rt, folder.as_str());
    }
}

/// The first line of a server over this folder can't be written, and it says so.
fn expect_unwritten<R: Abort + AllocGlobal + Net + time::Clock + RandomSource + Files<File = File>>(
    rt: &R,
    folder: &str,
    errors: &mut Vec<u8>,
) {
    let mut room = [0; 8];
    let arguments = arguments(rt, folder);
    let ended = run_server(rt, rt.alloc(), &arguments, &mut &mut room[..], errors);
    expect_eq(rt, &ended, &Err(Fault::Output));
    let said = b"nbt: the first line can't be written: failed to write whole buffer\n";
    expect_eq(rt, &errors.as_slice(), &said.as_slice());
}

#[test]
fn a_first_line_of_a_kept_server_that_can_not_be_written(rt: HostRuntime) {
    let folder = path_for(&rt, "unwritten").expect(&rt, "a path");
    let folder = folder.as_str();
    fs::create_dir(&rt, folder).expect(&rt, "a folder");
    expect_unwritten(&rt, folder, &mut Vec::new(rt.alloc()));
    fs::remove_dir_all(&rt, folder).expect(&rt, "removed");
}

/// Runs a server whose statistics go to the file `lock` of its folder. Returns how it ended, and what it said.
fn run_over_lock<R: Abort + AllocGlobal + Net + time::Clock + RandomSource + Files<File = File>>(
    rt: &R,
    folder: &str,
) -> (Result<Folder, Fault>, Vec<u8>) {
    let mut arguments = arguments(rt, folder);
    arguments.nbns.stats = Some(path_in(rt, folder, "lock"));
    let mut printed = Vec::new(rt.alloc());
    let mut errors = Vec::new(rt.alloc());
    let ended = run_server(rt, rt.alloc(), &arguments, &mut printed, &mut errors);
    (ended, errors)
}

/// Statistics aren't put in place of the lock of this folder, which says what it is.
fn expect_locked<R: Abort + AllocGlobal + Net + time::Clock + RandomSource + Files<File = File>>(
    rt: &R,
    folder: &str,
) {
    let (ended, errors) = run_over_lock(rt, folder);
    expect_eq(rt, &ended, &Err(Fault::Output));
    let why = b"its first line isn't '# statistics of nbt nbns': name another file\n";
    expect(rt, errors.as_slice().ends_with(why));
    let text = text_in(rt, folder, "lock");
    let text = text.as_ref().map(|text| text.as_str());
    expect_eq(rt, &text, &Some("# lock of nbt nbns\n"));
}

/// A lock that something else replaced would let a second server in: one that wasn't there before, and an empty one, as an earlier
/// version left it.
#[test]
fn nothing_is_put_in_place_of_a_lock(rt: HostRuntime) {
    let folder = path_for(&rt, "locked").expect(&rt, "a path");
    let folder = folder.as_str();
    fs::create_dir(&rt, folder).expect(&rt, "a folder");
    expect_locked(&rt, folder);
    fs::write(&rt, path_in(&rt, folder, "lock").as_str(), "").expect(&rt, "written");
    expect_locked(&rt, folder);
    fs::remove_dir_all(&rt, folder).expect(&rt, "removed");
}

/// Whether a store in this folder, which is opened and then synced once more, counts two syncs, and the time that each took.
fn counts_syncs<R: Abort + AllocGlobal + time::Clock + Files<File = File>>(
    rt: &R,
    folder: &str,
) -> bool {
    let disk = SystemDisk::open_folder(rt, rt.alloc(), folder).expect(rt, "open folder");
    let mut store = DiskStore::open(disk, rt.alloc(), &header(rt), &[]).expect(rt, "open");
    let first = store.syncs();
    store.sync().expect(rt, "sync");
    let second = store.syncs();
    let counts = first.count == 1 && second.count == 2;
    let lasts = 0 < first.nanoseconds && first.nanoseconds < second.nanoseconds;
    counts && lasts && second.milliseconds() == second.nanoseconds / 1_000_000
}

#[test]
fn a_folder_counts_its_syncs(rt: HostRuntime) {
    let folder = path_for(&rt, "syncs").expect(&rt, "a path");
    fs::create_dir(&rt, folder.as_str()).expect(&rt, "a folder");
    expect(&rt, counts_syncs(&rt, folder.as_str()));
    fs::remove_dir_all(&rt, folder.as_str()).expect(&rt, "removed");
}

/// How many calls of the system that write this process has made.
fn writes<R: Abort + AllocGlobal + Files>(rt: &R) -> usize {
    let counted = text_in(rt, "/proc/self", "io").expect(rt, "its counts");
    counted
        .as_str()
        .lines()
        .find_map(|line| line.strip_prefix("syscw: "))
        .and_then(|count| count.parse().ok())
        .expect(rt, "a number")
}

/// How many calls that write a store makes for a batch of changes and their sync.
fn writes_of_a_batch<R: Abort + AllocGlobal + Files<File = File> + time::Clock>(
    rt: &R,
    folder: &str,
) -> usize {
    let mut store = open_new(rt, folder, &[row(rt)]);
    let before = writes(rt);
    for at in 6..70 {
        store.append(&Change::Reached { at }).expect(rt, "memory");
    }
    expect_eq(rt, &writes(rt), &before);
    store.sync().expect(rt, "sync");
    writes(rt).saturating_sub(before)
}

/// The lines of a batch are written at once.
#[test]
fn a_batch_is_one_write(rt: HostRuntime) {
    let folder = path_for(&rt, "batch").expect(&rt, "a path");
    fs::create_dir(&rt, folder.as_str()).expect(&rt, "a folder");
    expect_eq(&rt, &writes_of_a_batch(&rt, folder.as_str()), &1);
    let lines = lines_in(&rt, folder.as_str());
    let count = lines
        .as_slice()
        .iter()
        .filter(|octet| **octet == b'\n')
        .count();
    expect_eq(&rt, &count, &67);
    fs::remove_dir_all(&rt, folder.as_str()).expect(&rt, "removed");
}

/// So many octets of room a file gets.
const ROOM: u64 = 1 << 20;

/// So many of them at once, at most.
const ROOM_PART: u64 = 1 << 16;

/// A new file beside one with few lines needs so many parts of 64 KiB, and a short one.
const PARTS_OF_ROOM: usize = 16;

/// How many octets the file of leases of a folder has, and how many of them are lines.
fn sizes<R: Abort + AllocGlobal + Files>(rt: &R, folder: &str) -> (u64, u64) {
    let path = path_in(rt, folder, "leases");
    let all = fs::metadata(rt, path.as_str()).expect(rt, "its attributes");
    (all.len(), lines_in(rt, folder).len() as u64)
}

/// Whether a new file gets all of its room: a part of 64 KiB each time that the store is asked, and no sooner.
fn gets_room<S: Store>(store: &S) -> bool {
    for _ in 0..PARTS_OF_ROOM {
        if store.can_renew() {
            return false;
        }
    }
    store.can_renew()
}

/// A file has its room behind the lines with which it was written. What comes later is written over that, and what is written anew has
/// as much again, where room for it was got before and where it wasn't.
fn expect_room<R: Abort + AllocGlobal + Files<File = File> + time::Clock>(rt: &R, folder: &str) {
    let mut store = open_new(rt, folder, &[row(rt)]);
    let (first, lines) = sizes(rt, folder);
    expect_eq(rt, &first, &lines.saturating_add(ROOM));
    store
        .append(&Change::Reached { at: 6 })
        .expect(rt, "memory");
    store.sync().expect(rt, "sync");
    let (second, more) = sizes(rt, folder);
    expect_eq(rt, &(second, lines < more), &(first, true));
    expect_eq(rt, &store.room(), &Room::Ample);
    for is_asked in [true, false] {
        expect(rt, !is_asked || gets_room(&store));
        renew(rt.alloc(), &mut store, &header(rt), &[row(rt)]).expect(rt, "renew");
        let (anew, lines) = sizes(rt, folder);
        let room = if is_asked { ROOM } else { ROOM / 2 };
        expect(rt, lines.saturating_add(room) <= anew);
        expect(rt, anew <= second.saturating_add(ROOM));
        store
            .append(&Change::Reached { at: 7 })
            .expect(rt, "memory");
        store.sync().expect(rt, "sync");
        expect_eq(rt, &sizes(rt, folder).0, &anew);
        expect_eq(rt, &kept(rt, folder), &1)
    }
}

#[test]
fn a_file_has_room_for_lines_to_come(rt: HostRuntime) {
    let folder = path_for(&rt, "room").expect(&rt, "a path");
    fs::create_dir(&rt, folder.as_str()).expect(&rt, "a folder");
    expect_room(&rt, folder.as_str());
    fs::remove_dir_all(&rt, folder.as_str()).expect(&rt, "removed");
}

/// More lines than two parts of room take.
const LONG: u64 = 7_000;

/// What lines took of the room of a file it gets back by a part at a look, while more than a part is missing.
fn expect_parts_of_room<R: Abort + AllocGlobal + Files<File = File> + time::Clock>(
    rt: &R,
    folder: &str,
) {
    let mut store = open_new(rt, folder, &[row(rt)]);
    let (first, before) = sizes(rt, folder);
    for at in 6..LONG {
        store.append(&Change::Reached { at }).expect(rt, "memory");
    }
    store.sync().expect(rt, "sync");
    let (size, lines) = sizes(rt, folder);
    expect_eq(rt, &size, &first);
    let parts = lines.saturating_sub(before) / ROOM_PART;
    expect(rt, parts >= 2);
    for look in 1..parts.saturating_add(2) {
        expect_eq_in(rt, &look, &store.room(), &Room::Ample);
        let more = look.min(parts).saturating_mul(ROOM_PART);
        expect_eq_in(
            rt,
            &look,
            &sizes(rt, folder),
            &(first.saturating_add(more), lines),
        );
    }
}

#[test]
fn a_file_gets_its_room_back_part_by_part(rt: HostRuntime) {
    let folder = path_for(&rt, "parts-of-room").expect(&rt, "a path");
    fs::create_dir(&rt, folder.as_str()).expect(&rt, "a folder");
    expect_parts_of_room(&rt, folder.as_str());
    fs::remove_dir_all(&rt, folder.as_str()).expect(&rt, "removed");
}

/// Lines that took all of the room at once, and more: at the next look half of the room is there again.
fn expect_room_at_once<R: Abort + AllocGlobal + Files<File = File> + time::Clock>(
    rt: &R,
    folder: &str,
) {
    let mut disk = SystemDisk::open_folder(rt, rt.alloc(), folder).expect(rt, "open folder");
    disk.create(b"a").expect(rt, "a new file");
    disk.install().expect(rt, "in its place");
    let count = 2 * ROOM;
    let mut octets = Vec::new(rt.alloc());
    octets.resize(count as usize, b'a').expect(rt, "memory");
    disk.append(octets.as_slice()).expect(rt, "memory");
    disk.sync().expect(rt, "sync");
    expect_eq(rt, &disk.room(), &Room::Ample);
    let (size, lines) = sizes(rt, folder);
    expect_eq(
        rt,
        &(size, lines),
        &(lines.saturating_add(ROOM / 2), count.saturating_add(1)),
    );
}

#[test]
fn lines_that_take_all_of_the_room_are_no_full_disk(rt: HostRuntime) {
    let folder = path_for(&rt, "room-at-once").expect(&rt, "a path");
    fs::create_dir(&rt, folder.as_str()).expect(&rt, "a folder");
    expect_room_at_once(&rt, folder.as_str());
    fs::remove_dir_all(&rt, folder.as_str()).expect(&rt, "removed");
}

/// A part of a file: so many times this octet.
type Part = (u8, usize);

/// The parts of a file, and how many octets of it are read: up to a zero from which its sector of 512 octets has zeros alone.
const PARTS: &[(&[Part], usize)] = &[
    (&[(b'a', 700)], 700),
    (&[(b'a', 700), (0, 1)], 700),
    (&[(b'a', 700), (0, 9_000)], 700),
    (&[(b'a', 512), (0, 512), (b'b', 100), (0, 9_000)], 512),
    (&[(b'a', 700), (0, 324), (b'b', 100), (0, 9_000)], 700),
    // What no crash leaves is read whole: it is damage.
    (&[(b'a', 700), (0, 1), (b'b', 100)], 801),
    (&[(b'a', 700), (0, 323), (b'b', 100)], 1_123),
    (&[(0, 3), (b'a', 100)], 103),
    (&[(0, 700)], 0),
    (&[], 0),
];

/// A file of these parts.
fn octets_of(rt: &(impl Abort + AllocGlobal), parts: &[Part]) -> Vec<u8> {
    let mut octets = Vec::new(rt.alloc());
    for (octet, count) in parts {
        let size = octets.len().saturating_add(*count);
        octets.resize(size, *octet).expect(rt, "memory");
    }
    octets
}

#[test]
fn a_file_is_read_up_to_its_room(rt: HostRuntime) {
    let path = path_for(&rt, "parts").expect(&rt, "a path");
    for (parts, count) in PARTS {
        let octets = octets_of(&rt, parts);
        fs::write(&rt, path.as_str(), octets.as_slice()).expect(&rt, "written");
        let read = leases_at(&rt, rt.alloc(), path.as_str(), ROWS_MOST).expect(&rt, "read");
        let read = read.expect(&rt, "a file");
        expect_eq_in(&rt, parts, &read.len(), count);
        expect_in(&rt, parts, octets.as_slice().starts_with(read.as_slice()));
    }
    fs::remove_file(&rt, path.as_str()).expect(&rt, "removed");
}

/// A file of leases that is there, and can't be read, is not taken for none: a server would put a new one in its place.
#[test]
fn leases_that_can_not_be_read_are_not_passed_over(rt: HostRuntime) {
    let folder = path_for(&rt, "unread").expect(&rt, "a path");
    let folder = folder.as_str();
    fs::create_dir(&rt, folder).expect(&rt, "a folder");
    let path = path_in(&rt, folder, "leases");
    fs::write(&rt, path.as_str(), "leases").expect(&rt, "written");
    let machine = machine_refusing(&rt, path.as_str());
    let disk = SystemDisk::open_folder(&machine, rt.alloc(), folder).expect(&rt, "open folder");
    let refused = disk
        .read(rt.alloc(), ROWS_MOST)
        .err()
        .map(|error| error.kind());
    expect(&rt, refused == Some(io::ErrorKind::PermissionDenied));
    fs::remove_dir_all(&rt, folder).expect(&rt, "removed");
}

/// A store whose folder is gone tells why it is broken.
#[test]
fn a_store_without_its_folder_says_why(rt: HostRuntime) {
    let folder = path_for(&rt, "gone").expect(&rt, "a path");
    fs::create_dir(&rt, folder.as_str()).expect(&rt, "a folder");
    let mut store = open_new(&rt, folder.as_str(), &[]);
    expect(&rt, store.error().is_none());
    fs::remove_dir_all(&rt, folder.as_str()).expect(&rt, "removed");
    expect(
        &rt,
        renew(rt.alloc(), &mut store, &header(&rt), &[]).is_err(),
    );
    let why = store.error().map(|error| error.kind());
    expect(&rt, why == Some(io::ErrorKind::NotFound));
}
