//! What lasts beside the column of an endpoint.

use crate::picture::chart::{Chart, Sort, Span};
use crate::picture::layout::Layout;
use crate::picture::shape::{Class, Point, Shape, put};
use crate::picture::top::colour_of;
use nbt_name::Kind;
use nbt_text::write_name;
use std::alloc::AllocError;

/// How far beside a column the first lane is, and how far two lanes are from each other.
const LANE_FIRST: u64 = 16;

const LANE_STEP: u64 = 18;

/// How many lanes stand beside one another; all others are drawn in the last.
const LANES_APART: usize = 5;

/// How far to the left of its column the lane of something is.
fn lane_of(span: &Span) -> u64 {
    LANE_FIRST + LANE_STEP * span.lane.min(LANES_APART) as u64
}

/// Draws what lasts beside a column.
pub fn draw_span(
    chart: &Chart,
    layout: &Layout,
    span: &Span,
    shapes: &mut Vec<Shape>,
) -> Result<(), AllocError> {
    let y = layout.spot(chart, span.column, span.from);
    let to_y = match span.to {
        Some(to) => layout.spot(chart, span.column, to),
        None => layout.foot,
    };
    let height = to_y.saturating_sub(y);
    let at = Point::new(layout.x(span.column), y);
    let end = Point::new(at.x, to_y);
    let lane = at.left(lane_of(span));
    match span.sort {
        Sort::Up => put(Shape::Line(Class::Column, at, end), shapes),
        Sort::Silence => put(Shape::Block(Class::Silence, at.left(5), 10, height), shapes),
        Sort::Hold => {
            put(Shape::Block(class_of(span), lane, 8, height), shapes)?;
            draw_side(chart, span, lane, shapes)
        }
        Sort::Lease => {
            let lane_end = end.left(lane_of(span));
            put(Shape::Line(class_of(span), lane, lane_end), shapes)?;
            draw_side(chart, span, lane, shapes)
        }
    }
}

/// How a hold or a lease looks.
fn class_of(span: &Span) -> Class {
    let colour = colour_of(span.name);
    match (span.sort, span.kind) {
        (Sort::Lease, Kind::Unique) => Class::Lease(colour),
        (Sort::Lease, Kind::Group) => Class::GroupLease(colour),
        (_, Kind::Unique) => Class::Hold(colour),
        (_, Kind::Group) => Class::GroupHold(colour),
    }
}

/// Draws whose a hold or a lease is, down its left side.
fn draw_side(
    chart: &Chart,
    span: &Span,
    lane: Point,
    shapes: &mut Vec<Shape>,
) -> Result<(), AllocError> {
    let mut words = String::new(*shapes.allocator());
    write_side(chart, span, &mut words)?;
    put(Shape::Upright(lane.left(11).down(4), words), shapes)
}

/// Appends the name that is held or leased, and of a lease the machine that has it.
fn write_side(chart: &Chart, span: &Span, words: &mut String) -> Result<(), AllocError> {
    if let Some(name) = chart.names.as_slice().get(span.name) {
        write_name(name, words)?;
    }
    if span.sort != Sort::Lease {
        return Ok(());
    }
    match chart.addrs.iter().position(|other| other.ip == span.addr) {
        Some(number) => write!(words, " n{number}"),
        None => words.push_str(" stranger"),
    }
}
