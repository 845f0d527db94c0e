//! The lock of a folder that keeps a server's leases: whose it is, and what a server does that has it, where the folder is moved or
//! another is put in its place.

use super::expect::{expect, expect_eq, expect_eq_in, expect_in};
use super::folders::{header, path_for, path_in, row, text_in};
use super::following::{Swap, machine_swapping};
use super::store::renew;
use nbt_nbns::{Content, FilePlace, FolderStore, Place};
use nbt_store::{Broken, Change, Store, SystemDisk};
use std::fs::{File, Permissions};
use std::os::unix::fs::{PermissionsExt, symlink};
use std::process::Abort;
use std::rt::Files;
use std::{fs, io, time};

/// What the file `lock` says.
const LOCK: &str = "# lock of nbt nbns\n";

/// Who may read and write a file of a folder, as its mode says.
fn mode_of<R: Abort + AllocGlobal + Files>(rt: &R, folder: &str, name: &str) -> u32 {
    let path = path_in(rt, folder, name);
    let metadata = fs::metadata(rt, path.as_str()).expect(rt, "a file");
    metadata.permissions().mode() & 0o777
}

/// Puts a file of this text and mode into a folder.
fn put<R: Abort + AllocGlobal + Files>(rt: &R, folder: &str, name: &str, text: &str, mode: u32) {
    let path = path_in(rt, folder, name);
    fs::write(rt, path.as_str(), text).expect(rt, "written");
    fs::set_permissions(rt, path.as_str(), Permissions::from_mode(mode)).expect(rt, "a mode");
}

/// The file of a folder has this text.
fn expect_text<R: Abort + AllocGlobal + Files>(
    rt: &R,
    folder: &str,
    name: &str,
    wanted: Option<&str>,
) {
    let text = text_in(rt, folder, name);
    let text = text.as_ref().map(|text| text.as_str());
    expect_eq_in(rt, &(folder, name), &text, &wanted);
}

/// A lock that is there before a folder is opened: its text, and its mode. An earlier version left it empty, or for everybody to read.
const EARLIER: [Option<(&str, u32)>; 5] = [
    None,
    Some(("", 0o644)),
    Some((LOCK, 0o644)),
    Some((LOCK, 0o666)),
    Some((LOCK, 0o600)),
];

/// The lock of a folder that was opened says what it is, and is for its owner alone.
fn expect_own<R: Abort + AllocGlobal + Files<File = File>>(
    rt: &R,
    folder: &str,
    earlier: Option<(&str, u32)>,
) {
    if let Some((text, mode)) = earlier {
        put(rt, folder, "lock", text, mode);
    }
    expect(rt, SystemDisk::open_folder(rt, rt.alloc(), folder).is_ok());
    expect_text(rt, folder, "lock", Some(LOCK));
    expect_eq_in(rt, &earlier, &mode_of(rt, folder, "lock"), &0o600);
}

#[test]
fn a_lock_is_for_its_owner_alone(rt: HostRuntime) {
    let folder = path_for(&rt, "own").expect(&rt, "a path");
    for earlier in &EARLIER {
        fs::create_dir(&rt, folder.as_str()).expect(&rt, "a folder");
        expect_own(&rt, folder.as_str(), *earlier);
        fs::remove_dir_all(&rt, folder.as_str()).expect(&rt, "removed");
    }
}

/// A folder isn't opened for this reason.
fn expect_refused<R: Abort + AllocGlobal + Files<File = File>>(rt: &R, folder: &str, why: &str) {
    match SystemDisk::open_folder(rt, rt.alloc(), folder).err() {
        Some(error) => {
            let said = format!(in rt.alloc(); "{error}").expect(rt, "memory");
            expect_eq(rt, &said.as_str(), &why);
        }
        None => expect(rt, false),
    }
}

/// Files that are no lock of a name server, but are named so: they stay as they are.
const FOREIGN: [&str; 4] = [
    "lock\n",
    "# lock of nbt nbns",
    "# lock of nbt nbns\n# lock of nbt nbns\n",
    "# leases of nbt nbns\n",
];

#[test]
fn a_foreign_file_that_is_named_as_a_lock_stays(rt: HostRuntime) {
    let folder = path_for(&rt, "foreign").expect(&rt, "a path");
    let folder = folder.as_str();
    fs::create_dir(&rt, folder).expect(&rt, "a folder");
    for text in FOREIGN {
        put(&rt, folder, "lock", text, 0o644);
        expect_refused(&rt, folder, "lock is another file");
        expect_text(&rt, folder, "lock", Some(text));
        expect_eq_in(&rt, &text, &mode_of(&rt, folder, "lock"), &0o644);
    }
    fs::remove_dir_all(&rt, folder).expect(&rt, "removed");
}

/// A lock that is a link isn't followed, and what it leads to stays as it is; where that isn't there, it isn't made.
fn expect_not_followed<R: Abort + AllocGlobal + Files<File = File>>(
    rt: &R,
    folder: &str,
    there: Option<&str>,
) {
    fs::create_dir(rt, folder).expect(rt, "a folder");
    if let Some(text) = there {
        put(rt, folder, "other", text, 0o644);
    }
    symlink(rt, "other", path_in(rt, folder, "lock").as_str()).expect(rt, "a link");
    expect_refused(rt, folder, "lock is no regular file");
    expect_text(rt, folder, "other", there);
    if there.is_some() {
        expect_eq(rt, &mode_of(rt, folder, "other"), &0o644);
    }
    fs::remove_dir_all(rt, folder).expect(rt, "removed");
}

#[test]
fn a_lock_that_is_a_link_is_not_followed(rt: HostRuntime) {
    let folder = path_for(&rt, "linked").expect(&rt, "a path");
    for there in [None, Some(""), Some(LOCK), Some("others")] {
        expect_not_followed(&rt, folder.as_str(), there);
    }
}

/// A folder isn't opened where another file takes the place of its lock meanwhile: it would lock nobody out.
fn expect_swapped<R: Abort + AllocGlobal + Files<File = File> + time::Clock>(
    rt: &R,
    folder: &str,
    before: bool,
) {
    let path = path_in(rt, folder, "lock");
    let by = path_in(rt, folder, "lock.new");
    let swap = Swap {
        path: path.as_str(),
        by: by.as_str(),
        before,
    };
    let machine = machine_swapping(rt, swap);
    match SystemDisk::open_folder(&machine, rt.alloc(), folder).err() {
        Some(error) => {
            let said = format!(in rt.alloc(); "{error}").expect(rt, "memory");
            expect_eq(rt, &said.as_str(), &REPLACED);
        }
        None => expect(rt, false),
    }
}

#[test]
fn a_lock_that_is_replaced_while_it_is_opened(rt: HostRuntime) {
    let folder = path_for(&rt, "swapped").expect(&rt, "a path");
    let folder = folder.as_str();
    fs::create_dir(&rt, folder).expect(&rt, "a folder");
    put(&rt, folder, "lock", LOCK, 0o600);
    put(&rt, folder, "lock.new", "", 0o644);
    expect_swapped(&rt, folder, false);
    expect_text(&rt, folder, "lock", Some(""));
    fs::remove_dir_all(&rt, folder).expect(&rt, "removed");
}

/// What a link leads to that is there just before a lock is opened stays as it is.
#[test]
fn a_lock_that_becomes_a_link_before_it_is_opened(rt: HostRuntime) {
    let folder = path_for(&rt, "relinked").expect(&rt, "a path");
    let folder = folder.as_str();
    fs::create_dir(&rt, folder).expect(&rt, "a folder");
    put(&rt, folder, "lock", LOCK, 0o600);
    put(&rt, folder, "other", "", 0o644);
    symlink(&rt, "other", path_in(&rt, folder, "lock.new").as_str()).expect(&rt, "a link");
    expect_swapped(&rt, folder, true);
    expect_text(&rt, folder, "other", Some(""));
    expect_eq(&rt, &mode_of(&rt, folder, "other"), &0o644);
    fs::remove_dir_all(&rt, folder).expect(&rt, "removed");
}

/// Puts a file into a new folder, and a link to it, which is to take the place of the file `new`. Returns its path, and that place's.
fn put_link<R: Abort + AllocGlobal + Files>(rt: &R, folder: &str, new: &str) -> (String, String) {
    fs::create_dir(rt, folder).expect(rt, "a folder");
    put(rt, folder, "other", OTHERS, 0o644);
    let link = path_in(rt, folder, "link");
    symlink(rt, "other", link.as_str()).expect(rt, "a link");
    (link, path_in(rt, folder, new))
}

/// A new file wasn't made, since there is one, and what a link leads to that is there stays as it is.
fn expect_not_made<R: Abort + AllocGlobal + Files>(
    rt: &R,
    folder: &str,
    ended: io::Result<()>,
    kept: &str,
) {
    let kind = ended.err().map(|error| error.kind());
    expect_eq(rt, &kind, &Some(io::ErrorKind::AlreadyExists));
    expect_text(rt, folder, "other", Some(OTHERS));
    expect_text(rt, folder, kept, None);
    fs::remove_dir_all(rt, folder).expect(rt, "removed");
}

/// A link that comes just before a new file of leases is made isn't followed.
#[test]
fn a_link_in_the_place_of_a_new_file_of_leases(rt: HostRuntime) {
    let folder = path_for(&rt, "leases-link").expect(&rt, "a path");
    let (link, new) = put_link(&rt, folder.as_str(), "leases.new");
    let swap = Swap {
        path: new.as_str(),
        by: link.as_str(),
        before: true,
    };
    let machine = machine_swapping(&rt, swap);
    let disk = SystemDisk::open_folder(&machine, rt.alloc(), folder.as_str()).expect(
        &rt,
        "open folder",
    );
    let ended = FolderStore::open(disk, rt.alloc(), &header(&rt), &[row(&rt)]).map(|_| ());
    expect_not_made(&rt, folder.as_str(), ended, "leases");
}

/// Neither is one that comes just before a new list is made.
#[test]
fn a_link_in_the_place_of_a_new_list(rt: HostRuntime) {
    let folder = path_for(&rt, "list-link").expect(&rt, "a path");
    let (link, new) = put_link(&rt, folder.as_str(), "list.new");
    let swap = Swap {
        path: new.as_str(),
        by: link.as_str(),
        before: true,
    };
    let machine = machine_swapping(&rt, swap);
    let path = path_in(&rt, folder.as_str(), "list");
    let mut place = FilePlace::new(&machine, rt.alloc(), Content::Leases, path.as_str()).expect(
        &rt, "a place",
    );
    let ended = place.replace("# live leases of nbt nbns\n");
    expect_not_made(&rt, folder.as_str(), ended, "list");
}

/// What becomes of a folder whose store is open.
#[derive(Clone, Copy, Debug)]
enum Lost {
    /// Nothing.
    Stays,
    /// It is moved.
    Moved,
    /// It is moved, and another one is put in its place, with a lock and leases of its own.
    Replaced,
    /// Its lock is removed.
    Unlocked,
    /// Its lock is removed, and another one is put in its place.
    LockedAnew,
    /// Its lock is moved, and a link to it is put in its place.
    Linked,
}

/// What is asked of the store then.
#[derive(Clone, Copy, Debug)]
enum Asks {
    Began,
    Reached,
    Looked,
    Renewal,
}

/// What becomes of it, and why the store refuses what looks at it; `None` where it goes well.
type Loss = (Lost, Option<&'static str>);

const NOT_THERE: &str = "No such file or directory (os error 2)";

const REPLACED: &str = "the folder was moved or replaced";

const LOSSES: [Loss; 6] = [
    (Lost::Stays, None),
    (Lost::Moved, Some(NOT_THERE)),
    (Lost::Replaced, Some(REPLACED)),
    (Lost::Unlocked, Some(NOT_THERE)),
    (Lost::LockedAnew, Some(REPLACED)),
    (Lost::Linked, Some(REPLACED)),
];

/// What the file of leases of another folder says, which is none of a store.
const OTHERS: &str = "others\n";

/// This becomes of a folder, which is moved to that path where it is moved.
fn lose<R: Abort + AllocGlobal + Files>(rt: &R, folder: &str, away: &str, lost: Lost) {
    let lock = path_in(rt, folder, "lock");
    match lost {
        Lost::Stays => {}
        Lost::Moved => fs::rename(rt, folder, away).expect(rt, "moved"),
        Lost::Replaced => {
            fs::rename(rt, folder, away).expect(rt, "moved");
            fs::create_dir(rt, folder).expect(rt, "a folder");
            put(rt, folder, "lock", LOCK, 0o600);
            put(rt, folder, "leases", OTHERS, 0o644);
        }
        Lost::Unlocked => fs::remove_file(rt, lock.as_str()).expect(rt, "removed"),
        Lost::LockedAnew => {
            // (beside the old one at first, so that it is another one to the system)
            put(rt, folder, "lock.new", LOCK, 0o600);
            fs::rename(rt, path_in(rt, folder, "lock.new").as_str(), lock.as_str()).expect(
                rt, "moved",
            );
        }
        Lost::Linked => {
            fs::rename(rt, lock.as_str(), path_in(rt, folder, "lock.old").as_str()).expect(
                rt, "moved",
            );
            symlink(rt, "lock.old", lock.as_str()).expect(rt, "a link");
        }
    }
}

/// Where the folder is then that the store had.
fn had<'a>(folder: &'a str, away: &'a str, lost: Lost) -> &'a str {
    match lost {
        Lost::Moved | Lost::Replaced => away,
        _ => folder,
    }
}

/// Asks the store.
fn ask<R: Abort + AllocGlobal + Files + time::Clock>(
    rt: &R,
    store: &mut FolderStore<'_, R>,
    asks: Asks,
) -> Result<(), Broken> {
    let (name, lease) = row(rt);
    match asks {
        Asks::Began => store.append(&Change::Began { name, lease, at: 9 }),
        Asks::Reached => store.append(&Change::Reached { at: 9 }),
        Asks::Looked => store.append(&Change::Looked { day: 9, at: 9 }),
        Asks::Renewal => renew(rt.alloc(), store, &header(rt), &[]),
    }
}

/// Whether the store looks at its folder for that: a change of a lease waits for nothing.
fn looks(asks: Asks) -> bool {
    !matches!(asks, Asks::Began)
}

/// The store says why it failed.
fn expect_why<R: Abort + AllocGlobal + Files + time::Clock>(
    rt: &R,
    row: &(Lost, Asks),
    store: &FolderStore<'_, R>,
    why: &str,
) {
    match store.error() {
        Some(error) => {
            let said = format!(in rt.alloc(); "{error}").expect(rt, "memory");
            expect_eq_in(rt, row, &said.as_str(), &why);
        }
        None => expect(rt, false),
    }
}

/// What is written, and what isn't: the file of the folder that the store had is as it was exactly where the store refused, and another
/// folder in its place is as it was.
fn expect_files<R: Abort + AllocGlobal + Files>(
    rt: &R,
    row: &(Lost, Asks),
    folder: &str,
    away: &str,
    before: &str,
    refused: bool,
) {
    let here = had(folder, away, row.0);
    let text = text_in(rt, here, "leases").expect(rt, "a file");
    expect_in(rt, row, (text.as_str() == before) == refused);
    expect_text(rt, here, "leases.new", None);
    if let Lost::Replaced = row.0 {
        expect_text(rt, folder, "lock", Some(LOCK));
        expect_text(rt, folder, "leases", Some(OTHERS));
        expect_text(rt, folder, "leases.new", None);
    }
}

/// A store is opened, its folder is lost, and this is asked of the store then.
fn expect_loss<'a, R: Abort + AllocGlobal + Files<File = File> + time::Clock>(
    rt: &'a R,
    folder: &'a str,
    away: &str,
    loss: &Loss,
    asks: Asks,
) {
    let disk = SystemDisk::open_folder(rt, rt.alloc(), folder).expect(rt, "open folder");
    let mut store = FolderStore::open(disk, rt.alloc(), &header(rt), &[row(rt)]).expect(rt, "open");
    let before = text_in(rt, folder, "leases").expect(rt, "a file");
    lose(rt, folder, away, loss.0);
    let about = (loss.0, asks);
    let came = ask(rt, &mut store, asks).and_then(|_| store.sync());
    let refused = loss.1.is_some() && looks(asks);
    expect_eq_in(rt, &about, &came.is_err(), &refused);
    if let (Some(why), true) = (loss.1, refused) {
        expect_why(rt, &about, &store, why);
    }
    expect_files(rt, &about, folder, away, before.as_str(), refused);
}

/// Each of these is asked of a store whose folder is lost so.
fn expect_losses<'a, R: Abort + AllocGlobal + Files<File = File> + time::Clock>(
    rt: &'a R,
    folder: &'a str,
    away: &str,
    loss: &Loss,
) {
    for asks in [Asks::Began, Asks::Reached, Asks::Looked, Asks::Renewal] {
        fs::create_dir(rt, folder).expect(rt, "a folder");
        expect_loss(rt, folder, away, loss, asks);
        // (one of them may not be there)
        let _ = fs::remove_dir_all(rt, folder);
        let _ = fs::remove_dir_all(rt, away);
    }
}

#[test]
fn a_folder_that_is_moved_or_replaced_is_not_written_to(rt: HostRuntime) {
    let folder = path_for(&rt, "lost").expect(&rt, "a path");
    let away = path_for(&rt, "lost-away").expect(&rt, "a path");
    for loss in &LOSSES {
        expect_losses(&rt, folder.as_str(), away.as_str(), loss);
    }
}
