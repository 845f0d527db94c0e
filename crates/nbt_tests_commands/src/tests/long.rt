//! Inputs of thousands of lines, words and octets, and a picture of more names than it has colours for.

use super::drawings::expect_drawn;
use super::expect::{expect, expect_eq};
use nbt_show::{Reply, write_reply, write_verdicts};
use nbt_sim::play;
use nbt_testing::octets;
use nbt_text::{lines_of, octets_of, words_of, words_said, write_hexadecimal};
use std::process::Abort;

/// An input, what comes of it, and what is to come of it.
#[derive(Drop)]
struct Texts {
    input: String,
    got: String,
    wanted: String,
}

impl Texts {
    fn clear(&mut self) {
        self.input.clear();
        self.got.clear();
        self.wanted.clear();
    }
}

/// Appends a text so often.
fn push<R: Abort>(rt: &R, times: usize, part: &str, text: &mut String) {
    for _ in 0..times {
        text.push_str(part).expect(rt, "memory");
    }
}

/// What came is what was to come.
fn expect_wanted<R: Abort>(rt: &R, about: &str, texts: &Texts) {
    expect(rt, &about, texts.got.as_str() == texts.wanted.as_str());
}

fn expect_lines<R: Abort + AllocGlobal>(rt: &R, texts: &mut Texts) {
    texts.clear();
    push(rt, 2_000, "a b\n", &mut texts.input);
    let input = texts.input.as_bytes();
    let lines = lines_of(rt.alloc(), input).expect(rt, "memory");
    expect_eq(rt, &"lines", &lines.len(), &2_001);
    // The last word of a line and the first one of the next are one where line feeds end no word.
    let words = words_said(rt.alloc(), input).expect(rt, "memory");
    let words = words.expect(rt, "words");
    expect_eq(rt, &"words", &words.len(), &2_001);
}

/// How many octets a long input has.
const MANY: usize = 60_000;

fn expect_octets<R: Abort + AllocGlobal>(rt: &R, texts: &mut Texts) {
    texts.clear();
    push(rt, MANY, "a5", &mut texts.wanted);
    let octets = octets_of(rt.alloc(), texts.wanted.as_bytes()).expect(rt, "memory");
    let octets = octets.expect(rt, "octets");
    let octets = octets.as_slice();
    expect(
        rt,
        &"octets",
        octets.len() == MANY && octets.iter().all(|octet| *octet == 0xA5),
    );
    write_hexadecimal(octets, &mut texts.got).expect(rt, "memory");
    expect_wanted(rt, "hexadecimal", texts);
}

fn expect_verdicts<R: Abort + AllocGlobal>(rt: &R, texts: &mut Texts) {
    texts.clear();
    push(rt, 2_000, "name 00 fault Short 1\n", &mut texts.input);
    for line in 1..=2_000 {
        writeln!(texts.wanted, "line {line}: pass").expect(rt, "memory");
    }
    push(rt, 1, "2000 passed, 0 failed\n", &mut texts.wanted);
    let well = write_verdicts(texts.input.as_bytes(), &mut texts.got).expect(rt, "memory");
    expect(rt, &"vectors", well);
    expect_wanted(rt, "verdicts", texts);
    // Five words a line, of which the last one goes on to the next.
    let words = words_of(rt.alloc(), texts.input.as_bytes()).expect(rt, "memory");
    expect_eq(rt, &"words", &words.len(), &8_001);
}

/// A lookup is open until its answer, so each is answered before the next.
fn expect_events<R: Abort>(rt: &R, texts: &mut Texts) {
    texts.clear();
    push(
        rt,
        1,
        "config 1000 60 4096 2\nstart s\nstart n1\n",
        &mut texts.input,
    );
    push(rt, 1, "ok\nok\n", &mut texts.wanted);
    for round in 0..500_u16 {
        let moment = 60_000 + u32::from(round);
        let request = 2 * u32::from(round);
        let reply = request + 1;
        writeln!(
            texts.input,
            "at {moment}\nresolve n1 FRED\ndeliver {request}\ndeliver {reply}\nholders FRED"
        )
        .expect(rt, "memory");
        writeln!(
            texts.wanted,
            "sent {request}\nsent {reply}\ntaken\nholders FRED: none"
        )
        .expect(rt, "memory");
    }
    let well = play(texts.input.as_bytes(), &mut texts.got).expect(rt, "memory");
    expect(rt, &"a script", well);
    expect_wanted(rt, "events", texts);
}

/// 300 entries, more than any datagram of 1,500 octets has.
fn expect_reply<R: Abort + AllocGlobal>(rt: &R, texts: &mut Texts) {
    texts.clear();
    push(rt, 1, "0008 8580 reply TEAM NB 60s 0708", &mut texts.input);
    push(rt, 300, " a000 127.0.0.2", &mut texts.input);
    push(rt, 300, "127.0.0.2 group\n", &mut texts.wanted);
    let reply = octets(rt, texts.input.as_str()).expect(rt, "octets");
    let told = write_reply(reply.as_slice(), &mut texts.got).expect(rt, "memory");
    expect_eq(rt, &"a reply", &told, &Reply::Found);
    expect_wanted(rt, "entries", texts);
}

/// What the picture of a hundred and one names has. Seventeen lines of names stand above the headings of the columns.
static HAS: [&str; 5] = [
    ">registration N100 60 s</text>",
    ">N99 n4</text>",
    ">N99</text>",
    " y=\"400\">server</text>\n",
    "<rect class=\"hold c0\" x=\"10\" y=\"74\" width=\"14\" height=\"10\"/>\n<text class=\"words\" x=\"30\" y=\"84\">N6</text>\n",
];

/// What it hasn't.
static HAS_NOT: [&str; 2] = [">N100 n5</text>", ">N100</text>"];

/// A hundred names get colours, the seventh that of the first; one more gets none, and no bar.
fn expect_names<R: Abort>(rt: &R, texts: &mut Texts) {
    texts.clear();
    push(rt, 1, "config 1000 60 4096 8\nstart s\n", &mut texts.input);
    for node in 1..9 {
        write!(texts.input, "start n{node}\n").expect(rt, "memory");
    }
    push(rt, 1, "at 60000\n", &mut texts.input);
    for number in 0..101u64 {
        let node = 1 + number % 8;
        let sent = 2 * number;
        write!(
            texts.input,
            "ask n{node} N{number} unique 60\ndeliver {sent}\ndeliver {}\n",
            sent + 1
        )
        .expect(rt, "memory");
    }
    expect_drawn(rt, texts.input.as_str(), None, &mut texts.got);
    for part in &HAS {
        expect(rt, &part, texts.got.as_str().contains(part));
    }
    for part in &HAS_NOT {
        expect(rt, &part, !texts.got.as_str().contains(part));
    }
}

#[test]
fn long_inputs(rt: HostRuntime) {
    let mut texts = Texts {
        input: String::new(rt.alloc()),
        got: String::new(rt.alloc()),
        wanted: String::new(rt.alloc()),
    };
    expect_lines(&rt, &mut texts);
    expect_octets(&rt, &mut texts);
    expect_verdicts(&rt, &mut texts);
    expect_events(&rt, &mut texts);
    expect_names(&rt, &mut texts);
    expect_reply(&rt, &mut texts)
}
