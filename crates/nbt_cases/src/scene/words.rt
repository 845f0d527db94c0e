//! What words come to, and how they are printed: one line a call.

use crate::scene::nbns_words::{answer_of_server, taking};
use crate::scene::paper::tell;
use crate::scene::script::Scene;
use crate::scene::stage::Stage;
use nbt_name::{Kind, Name};
use nbt_show::{rcode_words, write_reply};
use nbt_testing::octets;
use nbt_text::{
    Case, Fault, parse_number, read_address, read_duration, read_name, read_scoped_name,
    suffix_words, write_address, write_hexadecimal, write_octets,
};
use std::alloc::{AllocError, Global};

/// What stands for no scope, and for what can't be read.
const NO_SCOPE: &str = "-";

const NONE: &str = "none";

/// Prints what each request of a scene comes to.
pub fn play_words<R: AllocGlobal>(
    rt: &R,
    stage: &Stage<'_>,
    scene: &Scene,
) -> Result<(), AllocError> {
    for _ in 0..scene.lines.len() {
        let Some(words) = stage.request() else {
            break;
        };
        let (word, text) = words.split_once(" ").unwrap_or((words, ""));
        match word {
            "reply" => reply(rt, stage, text)?,
            "taken" | "cuts" => taking(rt, stage, word, text)?,
            _ => answer(rt.alloc(), stage, word, text)?,
        }
    }
    Ok(stage.end("end"))
}

/// What is told of a reply, and then what it was.
fn reply<R: AllocGlobal>(rt: &R, stage: &Stage<'_>, words: &str) -> Result<(), AllocError> {
    let Ok(octets) = octets(rt, words) else {
        return Ok(stage.refuse(words));
    };
    let mut text = String::new(rt.alloc());
    let reply = write_reply(octets.as_slice(), &mut text)?;
    stage.write(false, text.as_bytes());
    tell(stage, &reply);
    Ok(())
}

/// What a text comes to.
fn answer(alloc: Global, stage: &Stage<'_>, word: &str, text: &str) -> Result<(), AllocError> {
    match word {
        "number" => number(alloc, stage, parse_number(text.as_bytes())),
        "time" => number(alloc, stage, read_duration(text.as_bytes())),
        "address" => address(alloc, stage, text),
        "rcode" => Ok(match text.parse() {
            Ok(rcode) => stage.print(rcode_words(rcode)),
            Err(_) => stage.refuse(text),
        }),
        "suffix" => Ok(suffix(stage, text)),
        "day" | "judged" | "network" => answer_of_server(alloc, stage, word, text),
        _ => name(alloc, stage, word, text),
    }
}

fn number(alloc: Global, stage: &Stage<'_>, number: Option<u64>) -> Result<(), AllocError> {
    match number {
        Some(number) => stage.print(format!(in alloc; "{number}")?.as_str()),
        None => stage.print(NONE),
    }
    Ok(())
}

fn address(alloc: Global, stage: &Stage<'_>, text: &str) -> Result<(), AllocError> {
    let mut printed = String::new(alloc);
    match read_address(alloc, text)? {
        Some(address) => write_address(address, &mut printed)?,
        None => printed.push_str(NONE)?,
    }
    stage.print(printed.as_str());
    Ok(())
}

/// What a suffix, as two hexadecimal digits, means of a name of a kind.
fn suffix(stage: &Stage<'_>, text: &str) {
    let (digits, kind) = text.split_once(" ").unwrap_or((text, ""));
    let kind = if kind == "group" {
        Kind::Group
    } else {
        Kind::Unique
    };
    match u8::from_str_radix(digits, 16) {
        Ok(suffix) => stage.print(suffix_words(suffix, kind)),
        Err(_) => stage.refuse(text),
    }
}

/// A name, as it is printed, with its scope's octets behind it; or the number and the words of a fault. The scope that stands apart comes
/// first.
fn name(alloc: Global, stage: &Stage<'_>, word: &str, text: &str) -> Result<(), AllocError> {
    let (scope, name) = text.split_once(" ").unwrap_or((text, ""));
    let scope = if scope == NO_SCOPE { "" } else { scope };
    let (name, scope) = (name.as_bytes(), scope.as_bytes());
    let read = match word {
        "folded" => read_name(Case::Folded, name, scope),
        "exact" => read_name(Case::Exact, name, scope),
        "scoped" => read_scoped_name(Case::Folded, name, scope),
        _ => return Ok(stage.refuse(word)),
    };
    let mut printed = String::new(alloc);
    write_read(read, &mut printed)?;
    stage.print(printed.as_str());
    Ok(())
}

fn write_read(read: Result<Name, Fault>, text: &mut String) -> Result<(), AllocError> {
    match read {
        Ok(name) => {
            write_octets(name.octets(), text)?;
            if !name.scope().is_empty() {
                text.push(' ')?;
                write_hexadecimal(name.scope(), text)?;
            }
            Ok(())
        }
        Err(fault) => {
            let number = fault.number();
            write!(text, "{number}: {fault}")
        }
    }
}
