//! What heads a picture: what its signs mean, the names with their colours, and the endpoints with their addresses.

use crate::picture::chart::Chart;
use crate::picture::layout::{Layout, NAMES_IN_LINE, NAMES_LINE, NAMES_TOP};
use crate::picture::looks::COLOURS;
use crate::picture::shape::{Class, Point, Shape, put};
use nbt_name::{Addr, Name};
use nbt_text::{write_address, write_name};
use std::alloc::{AllocError, Global};

/// What signs of a picture mean.
const KEY: &str =
    "Bar: a node holds a name (hatched: as a group). Thin line: the server's lease (dashed: of a group). Grey: the server is silent. Band: time passes, shortened. Cross: lost, or never delivered.";

/// Draws what heads the picture.
pub fn draw_top(chart: &Chart, layout: &Layout, shapes: &mut Vec<Shape>) -> Result<(), AllocError> {
    let alloc = *shapes.allocator();
    let heading = String::from_str(alloc, "A run of nbt sim")?;
    let at = Point::new(10, 22);
    put(Shape::Text(Class::Heading, at, heading), shapes)?;
    let key = String::from_str(alloc, KEY)?;
    put(Shape::Text(Class::Time, at.down(20), key), shapes)?;
    for (place, name) in chart.names.iter().enumerate() {
        draw_name(alloc, place, name, shapes)?;
    }
    for (number, addr) in chart.addrs.iter().enumerate() {
        draw_end(alloc, layout, number, *addr, shapes)?;
    }
    Ok(())
}

/// How far two names of a line are from each other.
const NAMES_STEP: u64 = 195;

/// Draws a name with its colour.
fn draw_name(
    alloc: Global,
    place: usize,
    name: &Name,
    shapes: &mut Vec<Shape>,
) -> Result<(), AllocError> {
    let across = ((place % NAMES_IN_LINE) as u64).saturating_mul(NAMES_STEP);
    let down = ((place / NAMES_IN_LINE) as u64).saturating_mul(NAMES_LINE);
    let at = Point::new(10, NAMES_TOP).right(across).down(down);
    let class = Class::Hold(colour_of(place));
    put(Shape::Block(class, at.up(10), 14, 10), shapes)?;
    let mut words = String::new(alloc);
    write_name(name, &mut words)?;
    put(Shape::Text(Class::Words, at.right(20), words), shapes)
}

/// The colour of the name at this place.
pub fn colour_of(place: usize) -> u8 {
    (place % COLOURS) as u8
}

/// Draws an endpoint's heading, with its address.
fn draw_end(
    alloc: Global,
    layout: &Layout,
    number: usize,
    addr: Addr,
    shapes: &mut Vec<Shape>,
) -> Result<(), AllocError> {
    let at = Point::new(layout.x(number), layout.head).left(30);
    let heading = heading_of(alloc, number)?;
    put(Shape::Text(Class::Heading, at.up(24), heading), shapes)?;
    let mut address = String::new(alloc);
    write_address(addr, &mut address)?;
    put(Shape::Text(Class::Time, at.up(9), address), shapes)
}

/// What an endpoint is called.
fn heading_of(alloc: Global, number: usize) -> Result<String, AllocError> {
    if number == 0 {
        return String::from_str(alloc, "server");
    }
    format!(in alloc; "n{number}")
}
