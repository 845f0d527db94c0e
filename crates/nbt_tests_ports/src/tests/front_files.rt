//! The files that say who may register and which names are fixed, read anew while a server serves.

use super::expect::{expect, expect_in};
use nbt_front::{FixedNames, Front, FrontFiles, FrontSource, read_network};
use nbt_lease::Moment;
use nbt_testing::config;
use std::process::Abort;
use std::rt::Files;
use std::{env, fs, process};

/// What is done before a look.
#[derive(Debug)]
enum Does {
    Nothing,
    /// The file of fixed names gets this text.
    Fixes(&'static str),
    /// The file of networks gets this text.
    Allows(&'static str),
    /// The file of fixed names is removed.
    Removes,
    /// What was given last could not be put in place.
    Again,
}

/// What is done; at which moment the files are looked at then; how many names are fixed, and how many networks may register, where another
/// front takes the place of the last one; and how what is said ends.
const LOOKS: [(Does, u64, Option<(usize, usize)>, &str); 35] = [
    (Does::Fixes("FILER unique 192.0.2.7\n"), 0, None, ""),
    (Does::Nothing, 999, None, ""),
    (
        Does::Nothing,
        1_000,
        Some((1, 2)),
        "nbt: networks that may register: 2; added 192.0.2.0/24\nnbt: fixed names: 1; added FILER#20\n",
    ),
    (Does::Nothing, 2_000, None, ""),
    (Does::Fixes("LASER1 unique 192.0.2.8\n"), 3_000, None, ""),
    (Does::Nothing, 3_999, None, ""),
    (
        Does::Nothing,
        4_000,
        Some((1, 2)),
        "nbt: fixed names: 1; added LASER1#20; taken out FILER#20\n",
    ),
    (
        Does::Again,
        5_000,
        None,
        "nbt: read anew: nothing changed\n",
    ),
    (
        Does::Fixes("LASER1 single 192.0.2.8\nLASER2\n"),
        6_000,
        None,
        "",
    ),
    (
        Does::Nothing,
        7_000,
        None,
        ": line 1: kind: unique or group is wanted; what was read before stays\n",
    ),
    (Does::Nothing, 8_000, None, ""),
    (
        Does::Fixes("# one\nLASER1 unique 192.0.2.9\n"),
        9_000,
        None,
        "",
    ),
    (
        Does::Nothing,
        10_000,
        Some((1, 2)),
        "nbt: fixed names: 1; changed LASER1#20\n",
    ),
    (Does::Removes, 11_000, None, ""),
    (
        Does::Nothing,
        12_000,
        None,
        "; what was read before stays\n",
    ),
    (Does::Nothing, 13_000, None, ""),
    (
        Does::Fixes(
            "A unique 192.0.2.1\nB unique 192.0.2.1\nC unique 192.0.2.1\nD unique 192.0.2.1\nE unique 192.0.2.1\nF unique 192.0.2.1\nG unique 192.0.2.1\n",
        ),
        14_000,
        None,
        "",
    ),
    (
        Does::Nothing,
        15_000,
        Some((7, 2)),
        "nbt: fixed names: 7; added A#20, B#20, C#20, D#20, E#20 and 2 more; taken out LASER1#20\n",
    ),
    (Does::Allows("# none\n"), 16_000, None, ""),
    (
        Does::Nothing,
        17_000,
        None,
        ": no line names a network; what was read before stays\n",
    ),
    (Does::Allows(" 198.51.100.7\t\r\n"), 18_000, None, ""),
    (
        Does::Nothing,
        19_000,
        Some((7, 2)),
        "nbt: networks that may register: 2; added 198.51.100.7/32; taken out 192.0.2.0/24\n",
    ),
    (Does::Nothing, 20_000, None, ""),
    // While one of the two has a fault, the other one is read, and the fault isn't said again.
    (Does::Fixes("LASER1 single 192.0.2.8\n"), 21_000, None, ""),
    (
        Does::Nothing,
        22_000,
        None,
        ": line 1: kind: unique or group is wanted; what was read before stays\n",
    ),
    (
        Does::Allows("192.0.2.0/24\n198.51.100.7\n"),
        23_000,
        None,
        "",
    ),
    (
        Does::Nothing,
        24_000,
        Some((7, 3)),
        "nbt: networks that may register: 3; added 192.0.2.0/24\n",
    ),
    (Does::Allows("198.51.100.7/33\n"), 25_000, None, ""),
    (
        Does::Nothing,
        26_000,
        None,
        ": line 1: no A.B.C.D/BITS or A.B.C.D, with 0 to 32 bits; what was read before stays\n",
    ),
    (Does::Fixes("A unique 192.0.2.1\n"), 27_000, None, ""),
    (
        Does::Nothing,
        28_000,
        Some((1, 3)),
        "nbt: fixed names: 1; taken out B#20, C#20, D#20, E#20, F#20 and 1 more\n",
    ),
    // Both are written at once, one of them with a fault.
    (Does::Allows("198.51.100.7/34\n"), 28_500, None, ""),
    (Does::Fixes("A unique 192.0.2.2\n"), 29_000, None, ""),
    (
        Does::Nothing,
        30_000,
        Some((1, 3)),
        ": line 1: no A.B.C.D/BITS or A.B.C.D, with 0 to 32 bits; what was read before stays\nnbt: fixed names: 1; changed A#20\n",
    ),
    (Does::Nothing, 31_000, None, ""),
];

/// A path in the folder for temporary files that no other test has.
fn path_for(rt: &HostRuntime, name: &str) -> Option<String> {
    let folder = env::temp_dir(rt).ok()?;
    let folder = folder.as_path().to_str()?;
    let id = process::id(rt.process());
    format!(in rt.alloc(); "{folder}/nbt-{id}-{name}").ok()
}

fn act<R: Abort + Files, S: FrontSource>(
    rt: &R,
    does: &Does,
    fixed: &str,
    allowed: &str,
    files: &mut S,
) {
    match does {
        Does::Nothing => {}
        Does::Fixes(text) => fs::write(rt, fixed, *text).expect(rt, "written"),
        Does::Allows(text) => fs::write(rt, allowed, *text).expect(rt, "written"),
        Does::Removes => fs::remove_file(rt, fixed).expect(rt, "removed"),
        Does::Again => files.again(),
    }
}

#[test]
fn files_are_read_anew_once_they_were_replaced(rt: HostRuntime) {
    let fixed = path_for(&rt, "fixed").expect(&rt, "a path");
    let allowed = path_for(&rt, "allowed").expect(&rt, "a path");
    fs::write(&rt, allowed.as_str(), "192.0.2.0/24\n").expect(&rt, "written");
    let mut given = Vec::new(rt.alloc());
    let network = read_network(b"10.0.0.0/8").expect(&rt, "a network");
    given.push(network).expect(&rt, "memory");
    let mut first = Front::new(
        given,
        FixedNames::none(rt.alloc()),
        config(1).expect(&rt, "limits"),
    );
    first.read_from(
        Some(String::from_str(rt.alloc(), allowed.as_str()).expect(&rt, "memory")),
        Some(String::from_str(rt.alloc(), fixed.as_str()).expect(&rt, "memory")),
    );
    let mut files = FrontFiles::new(&rt, rt.alloc(), &first);
    let mut later: Option<Front> = None;
    for row in &LOOKS {
        act(&rt, &row.0, fixed.as_str(), allowed.as_str(), &mut files);
        let now = Moment::new(row.1).expect(&rt, "a moment");
        let mut errors = Vec::new(rt.alloc());
        let found = files.look(later.as_ref().unwrap_or(&first), now, &mut errors);
        let said = errors.as_slice();
        expect_in(&rt, &row.0, said.ends_with(row.3.as_bytes()));
        expect_in(&rt, &row.0, said.is_empty() == row.3.is_empty());
        let counts = found
            .as_ref()
            .map(|front| (front.fixed().len(), front.allowed().len()));
        expect_in(&rt, &row.0, counts == row.2);
        if found.is_some() {
            later = found;
        }
    }
    fs::remove_file(&rt, fixed.as_str()).expect(&rt, "removed");
    fs::remove_file(&rt, allowed.as_str()).expect(&rt, "removed");
    expect(&rt, later.is_some());
}
