//! The file of fixed names alone: what it says, and which leases stand in the way of its names.

use crate::scene::kept::kept_leases;
use crate::scene::script::Scene;
use crate::scene::stage::Stage;
use nbt_front::{FileFault, FixedNames, read_fixed};
use nbt_text::{Case, read_name, write_dotted, write_word};
use std::alloc::{AllocError, Global};

/// Prints how many names the file of a scene has, then each lease that is kept and stands in the way of one, and then what is fixed of each
/// name that is asked for; or the file's first wrong line.
pub fn play_fixed(stage: &Stage<'_>, alloc: Global, scene: &Scene) -> Result<(), AllocError> {
    match read_fixed(alloc, scene.fixed.as_slice()) {
        Ok(names) => tell_names(stage, alloc, scene, &names)?,
        Err(FileFault::Line(number, fault)) => {
            stage.print(format!(in alloc; "line {number}: {fault}")?.as_str())
        }
        Err(FileFault::Memory) => return Err(AllocError),
    }
    Ok(stage.end("end"))
}

fn tell_names(
    stage: &Stage<'_>,
    alloc: Global,
    scene: &Scene,
    names: &FixedNames,
) -> Result<(), AllocError> {
    let count = names.len();
    stage.print(format!(in alloc; "{count} names")?.as_str());
    tell_in_the_way(stage, alloc, scene, names)?;
    for _ in 0..scene.lines.len() {
        let Some(text) = stage.request() else {
            break;
        };
        tell_fixed(stage, alloc, names, text)?;
    }
    Ok(())
}

/// The leases that stand in the way of the names: the name and the address of each.
fn tell_in_the_way(
    stage: &Stage<'_>,
    alloc: Global,
    scene: &Scene,
    names: &FixedNames,
) -> Result<(), AllocError> {
    let Some(mut rows) = kept_leases(alloc, scene)? else {
        return Ok(stage.refuse("a lease that is none"));
    };
    names.retain_in_the_way(&mut rows);
    for (name, lease) in rows.iter() {
        let mut text = String::new(alloc);
        write_word(name, &mut text)?;
        text.push_str(" ")?;
        write_dotted(lease.addr, &mut text)?;
        stage.print(text.as_str());
    }
    Ok(())
}

/// What is fixed of a name: its kind and its addresses.
fn tell_fixed(
    stage: &Stage<'_>,
    alloc: Global,
    names: &FixedNames,
    text: &str,
) -> Result<(), AllocError> {
    let Ok(name) = read_name(Case::Exact, text.as_bytes(), b"") else {
        return Ok(stage.refuse(text));
    };
    let Some(fixed) = names.get(&name) else {
        return Ok(stage.print("none"));
    };
    let kind = fixed.kind();
    let mut text = format!(in alloc; "{kind:?}")?;
    for addr in fixed.addrs() {
        text.push_str(" ")?;
        write_dotted(*addr, &mut text)?;
    }
    stage.print(text.as_str());
    Ok(())
}
