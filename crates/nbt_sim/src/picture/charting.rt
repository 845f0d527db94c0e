//! A chart as an SVG document.

use crate::picture::chart::{Chart, Row};
use crate::picture::document::{WIDTH, write_document};
use crate::picture::layout::{BAND, Layout, ROW, lay_out};
use crate::picture::rows::{draw_rows, draw_ways};
use crate::picture::shape::{Class, Point, Shape, put};
use crate::picture::spans::draw_span;
use crate::picture::top::draw_top;
use std::alloc::AllocError;

/// Appends the picture of a chart: a head, whole shapes, each text of them escaped, and a tail, whatever the chart's words are.
pub fn write_picture(chart: &Chart, out: &mut String) -> Result<(), AllocError> {
    let alloc = *out.allocator();
    let layout = lay_out(alloc, chart)?;
    let height = layout.foot.saturating_add(ROW);
    let mut shapes = Vec::new(alloc);
    draw_chart(chart, &layout, height, &mut shapes)?;
    write_document(height, shapes.as_slice(), out)
}

/// Draws a chart: the background, the bands, what lasts, the ways of datagrams, the rows, and the head of the picture, each over
/// those before it.
fn draw_chart(
    chart: &Chart,
    layout: &Layout,
    height: u64,
    shapes: &mut Vec<Shape>,
) -> Result<(), AllocError> {
    let page = Shape::Block(Class::Page, Point::new(0, 0), WIDTH, height);
    put(page, shapes)?;
    draw_bands(chart, layout, shapes)?;
    for span in chart.spans.iter() {
        draw_span(chart, layout, span, shapes)?;
    }
    for (number, row) in chart.rows.iter().enumerate() {
        draw_ways(chart, layout, number, row, shapes)?;
    }
    draw_rows(chart, layout, shapes)?;
    draw_top(chart, layout, shapes)
}

/// Draws the bands in which time passes.
fn draw_bands(chart: &Chart, layout: &Layout, shapes: &mut Vec<Shape>) -> Result<(), AllocError> {
    for (place, row) in layout.places.iter().zip(chart.rows.iter()) {
        if let Some(band) = place.band {
            draw_band(chart, layout, row, band, shapes)?;
        }
    }
    Ok(())
}

/// Draws a band, with the time at its end, and what each endpoint reads then that reads another.
fn draw_band(
    chart: &Chart,
    layout: &Layout,
    row: &Row,
    band: u64,
    shapes: &mut Vec<Shape>,
) -> Result<(), AllocError> {
    let block = Shape::Block(Class::Band, Point::new(0, band), WIDTH, BAND);
    put(block, shapes)?;
    let y = band.saturating_add(15);
    draw_time(row.clock, Point::new(10, y), shapes)?;
    for (number, reading) in row.readings.iter().enumerate() {
        if number < chart.addrs.len() && *reading != row.clock {
            draw_time(*reading, Point::new(layout.x(number), y).right(6), shapes)?;
        }
    }
    Ok(())
}

/// Draws a time in seconds, with its milliseconds.
fn draw_time(ms: u64, at: Point, shapes: &mut Vec<Shape>) -> Result<(), AllocError> {
    let seconds = ms / 1000;
    let rest = ms % 1000;
    let words = format!(in *shapes.allocator(); "{seconds}.{rest:03} s")?;
    put(Shape::Text(Class::Time, at, words), shapes)
}
