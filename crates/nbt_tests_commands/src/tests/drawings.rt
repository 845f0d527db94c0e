//! Pictures of scripts that end early, and of none. `nbt_cases` plays the others.

use super::expect::{expect, expect_eq};
use nbt_sim::draw;
use std::process::Abort;

/// Draws a script, in place of what is there, which ends at this line.
pub fn expect_drawn<R: Abort>(rt: &R, script: &str, ended: Option<usize>, picture: &mut String) {
    picture.clear();
    let got = draw(script.as_bytes(), picture).expect(rt, "memory");
    expect_eq(rt, &script, &got, &ended);
}

/// A node has a name for 60 seconds.
const HELD: &str = "\
config 1000 60 4096 1
start s
start n1
at 60000
ask n1 FRED unique 60
deliver 0
deliver 1
";

/// Lines of a script, one that ends it, its number, and what follows it.
static ENDED: [(&str, &str, usize, &str); 7] = [
    ("", "start s", 1, ""),
    ("# a remark\n\n", "config x", 3, "config 1000 60 4096 1\n"),
    (
        "config 1000 60 4096 1\nstart n1\n",
        "start n0",
        3,
        "start s\n",
    ),
    (
        "config 1000 60 4096 1\nstart n1\n",
        "ask n1 FRED single 60",
        3,
        "",
    ),
    (
        "config 1000 60 4096 1\nat 2000\nstart n1\n",
        "at 1999",
        4,
        "crash n1",
    ),
    (
        "config 1000 60 4096 1\nstart s\nat 7\n",
        "config 1000 60 4096 1",
        4,
        "",
    ),
    (HELD, "\r", 8, "crash n1\n"),
];

/// A line that can't be read, or done, ends the picture: it shows what came before it.
fn expect_ended<R: Abort>(
    rt: &R,
    row: &(&str, &str, usize, &str),
    script: &mut String,
    picture: &mut String,
    wanted: &mut String,
) {
    let (before, line, number, after) = *row;
    script.clear();
    write!(script, "{before}{line}\n{after}").expect(rt, "memory");
    expect_drawn(rt, script.as_str(), Some(number), picture);
    expect_drawn(rt, before, None, wanted);
    expect(rt, &line, picture.as_str() == wanted.as_str());
}

/// What no picture of these has: a column, an end, a row, or a band.
static NOTHING: [&str; 5] = [
    "<line ",
    "<circle ",
    "<rect class=\"band\"",
    ">server<",
    "<text class=\"words\"",
];

/// The picture of a script that has no world.
fn expect_nothing<R: Abort>(rt: &R, script: &str, picture: &mut String) {
    expect_drawn(rt, script, None, picture);
    expect(rt, &script, picture.as_str().ends_with("</svg>\n"));
    for part in &NOTHING {
        expect(rt, &(script, part), !picture.as_str().contains(part));
    }
}

#[test]
fn scripts_that_end_early_or_have_no_world(rt: HostRuntime) {
    let mut script = String::new(rt.alloc());
    let mut picture = String::new(rt.alloc());
    let mut wanted = String::new(rt.alloc());
    for row in &ENDED {
        expect_ended(&rt, row, &mut script, &mut picture, &mut wanted);
    }
    for script in ["", "\n", "# a remark\n"] {
        expect_nothing(&rt, script, &mut picture);
    }
}
