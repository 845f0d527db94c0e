//! What words about name servers come to.

use crate::scene::paper::tell;
use crate::scene::stage::Stage;
use nbt_front::read_network;
use nbt_lease::Config;
use nbt_log::write_time;
use nbt_nbns::judge;
use nbt_serve::take_registration;
use nbt_testing::octets;
use nbt_text::read_address;
use std::alloc::{AllocError, Global};

/// What a second since 1970 is as a time of day; what is said of a life and a longest lease; and whether a network has an address.
pub fn answer_of_server(
    alloc: Global,
    stage: &Stage<'_>,
    word: &str,
    text: &str,
) -> Result<(), AllocError> {
    match word {
        "day" => day(alloc, stage, text),
        "judged" => Ok(judged(stage, text)),
        "network" => network(alloc, stage, text),
        _ => Ok(stage.refuse(word)),
    }
}

fn day(alloc: Global, stage: &Stage<'_>, text: &str) -> Result<(), AllocError> {
    let Ok(second) = text.parse() else {
        return Ok(stage.refuse(text));
    };
    let mut printed = String::new(alloc);
    write_time(second, &mut printed)?;
    stage.print(printed.as_str());
    Ok(())
}

fn judged(stage: &Stage<'_>, text: &str) {
    let (life, longest) = text.split_once(" ").unwrap_or((text, ""));
    let config = Config::new(life.parse().unwrap_or(0), longest.parse().unwrap_or(0), 1);
    match config {
        Ok(config) => tell(stage, &judge(config)),
        Err(_) => stage.refuse(text),
    }
}

fn network(alloc: Global, stage: &Stage<'_>, text: &str) -> Result<(), AllocError> {
    let (network, addr) = text.split_once(" has ").unwrap_or((text, ""));
    match (read_network(network.as_bytes()), read_address(alloc, addr)?) {
        (None, _) => stage.print("none"),
        (Some(network), Some(addr)) => tell(stage, &network.contains(addr.ip)),
        (Some(_), None) => stage.refuse(text),
    }
    Ok(())
}

/// What is taken as a registration: each octet that changes, by its place. Or the octets are taken so, cut to each shorter length.
pub fn taking<R: AllocGlobal>(
    rt: &R,
    stage: &Stage<'_>,
    word: &str,
    words: &str,
) -> Result<(), AllocError> {
    let Ok(octets) = octets(rt, words) else {
        return Ok(stage.refuse(words));
    };
    if word == "taken" {
        return take(rt.alloc(), stage, octets.as_slice());
    }
    for length in 0..octets.len() {
        take(rt.alloc(), stage, &octets[..length])?;
    }
    Ok(())
}

fn take(alloc: Global, stage: &Stage<'_>, octets: &[u8]) -> Result<(), AllocError> {
    let mut taken = Vec::from_slice(alloc, octets)?;
    if !take_registration(taken.as_mut_slice()) {
        stage.print("left");
    }
    for (place, (before, after)) in octets.iter().zip(taken.iter()).enumerate() {
        if before != after {
            stage.print(format!(in alloc; "{place}: {after:02x}")?.as_str());
        }
    }
    Ok(())
}
