//! The rows of a picture: the ways of datagrams, the signs at the columns, and the words.

use crate::picture::chart::{Chart, ENDS_MOST, Fate, Flight, Row, Sign};
use crate::picture::document::WIDTH;
use crate::picture::layout::{Layout, ROW, flight_of, goes_right};
use crate::picture::shape::{Class, Point, Shape, put, put_cross};
use std::alloc::AllocError;

/// Draws the ways of a row: that of the datagram that comes there, and of one that leaves there and never comes.
pub fn draw_ways(
    chart: &Chart,
    layout: &Layout,
    number: usize,
    row: &Row,
    shapes: &mut Vec<Shape>,
) -> Result<(), AllocError> {
    let to = layout.point(row.column, number);
    let edge = Point::new(WIDTH, to.y);
    match row.sign {
        Sign::Comes(Some(flight), fate) => {
            if let Some(flight) = chart.flights.as_slice().get(flight) {
                draw_way(layout, flight, fate, to, shapes)?;
            }
        }
        Sign::Comes(None, Fate::Accepted) => put(Shape::Line(Class::Arrow, edge, to), shapes)?,
        Sign::Comes(None, _) => draw_stray(edge, to, shapes)?,
        _ => {}
    }
    match flight_of(row, chart.flights.as_slice()) {
        Some(flight) if !flight.ended => draw_stub(layout, flight, shapes),
        _ => Ok(()),
    }
}

/// How far a datagram leads away from a column that an endpoint sends to itself.
const LOOP: u64 = 40;

/// Draws the way of a datagram to its endpoint; of one that is lost on it most of the way, and a cross.
fn draw_way(
    layout: &Layout,
    flight: &Flight,
    fate: Fate,
    to: Point,
    shapes: &mut Vec<Shape>,
) -> Result<(), AllocError> {
    let from = layout.departure(flight);
    match fate {
        Fate::Accepted if from.x == to.x => {
            let beside = to.right(LOOP).up(ROW / 2);
            put(Shape::Line(Class::Stray, from, beside), shapes)?;
            put(Shape::Line(Class::Arrow, beside, to), shapes)
        }
        Fate::Accepted => put(Shape::Line(Class::Arrow, from, to), shapes),
        Fate::Lost => {
            let end = Point::new(most_of_the_way(from.x, to.x), most_of_the_way(from.y, to.y));
            draw_stray(from, end, shapes)
        }
        Fate::Missed => draw_stray(from, to, shapes),
    }
}

/// Draws a dashed line, with a cross where it ends.
fn draw_stray(from: Point, to: Point, shapes: &mut Vec<Shape>) -> Result<(), AllocError> {
    put(Shape::Line(Class::Stray, from, to), shapes)?;
    put_cross(to, shapes)
}

/// Seven eighths of the way from one number to another.
fn most_of_the_way(from: u64, to: u64) -> u64 {
    if from <= to {
        to - (to - from) / 8
    } else {
        to + (from - to) / 8
    }
}

/// How far a datagram leads that is never delivered.
const STUB: u64 = 60;

/// Draws the way of a datagram that is never delivered, with its words; one for an address that is no endpoint's leads to the
/// edge.
fn draw_stub(layout: &Layout, flight: &Flight, shapes: &mut Vec<Shape>) -> Result<(), AllocError> {
    let from = layout.departure(flight);
    let below = from.down(ROW - 6);
    let words = flight.words.clone()?;
    if flight.to.is_none() {
        let edge = Point::new(WIDTH, below.y);
        put(Shape::Line(Class::Arrow, from, edge), shapes)?;
        return put(Shape::Text(Class::Words, below.right(10), words), shapes);
    }
    let is_right = goes_right(flight);
    let to = if is_right {
        below.right(STUB)
    } else {
        below.left(STUB)
    };
    draw_stray(from, to, shapes)?;
    let beside = if is_right { to } else { below };
    let start = beside.right(10).down(4);
    put(Shape::Text(Class::Words, start, words), shapes)
}

/// Draws the signs and the words of all rows.
pub fn draw_rows(
    chart: &Chart,
    layout: &Layout,
    shapes: &mut Vec<Shape>,
) -> Result<(), AllocError> {
    for (number, row) in chart.rows.iter().enumerate() {
        draw_row(chart, layout, number, row, shapes)?;
    }
    Ok(())
}

/// Draws the sign of a row at its column, and its words.
fn draw_row(
    chart: &Chart,
    layout: &Layout,
    number: usize,
    row: &Row,
    shapes: &mut Vec<Shape>,
) -> Result<(), AllocError> {
    let at = layout.point(row.column, number);
    draw_sign(row.sign, at, shapes)?;
    let beside = words_beside(chart, row, at);
    let words = row.words.clone()?;
    put(Shape::Text(Class::Words, beside, words), shapes)
}

/// Draws what stands for a sign at its column; that of a datagram is its way.
fn draw_sign(sign: Sign, at: Point, shapes: &mut Vec<Shape>) -> Result<(), AllocError> {
    match sign {
        Sign::Mark => put(Shape::Dot(at), shapes),
        Sign::Crash => put_cross(at, shapes),
        _ => Ok(()),
    }
}

/// Where a row's words begin, of which this is the place at its column: beside the way of a datagram that comes from the
/// endpoint itself, and below the line of one that comes from the right.
fn words_beside(chart: &Chart, row: &Row, at: Point) -> Point {
    match sender_of(chart, row) {
        Some(from) if from == row.column => at.right(LOOP + 10).down(4),
        Some(from) if from > row.column => at.right(10).down(15),
        _ => at.right(10).down(4),
    }
}

/// The endpoint whose datagram comes in a row, if one does; an unknown sender is to the right of all.
fn sender_of(chart: &Chart, row: &Row) -> Option<usize> {
    match row.sign {
        Sign::Comes(Some(number), _) => Some(chart.flights.as_slice().get(number)?.from),
        Sign::Comes(None, _) => Some(ENDS_MOST),
        _ => None,
    }
}
