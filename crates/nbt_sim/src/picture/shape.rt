//! The shapes of a picture, as elements of an SVG document (SVG 1.1 sections 9 and 10).

use crate::picture::escaping::write_escaped;
use std::alloc::AllocError;

/// A place in a picture, in the picture's own units.
#[derive(Clone, Copy)]
pub struct Point {
    /// How far it is to the right.
    pub x: u64,
    /// How far it is down.
    pub y: u64,
}

impl Point {
    /// The point so far to the right and so far down.
    pub fn new(x: u64, y: u64) -> Point {
        Point { x, y }
    }

    /// The point so much further to the right.
    pub fn right(self, by: u64) -> Point {
        Point::new(self.x.saturating_add(by), self.y)
    }

    /// The point so much further to the left; where that is beyond the edge, the one at the edge.
    pub fn left(self, by: u64) -> Point {
        Point::new(self.x.saturating_sub(by), self.y)
    }

    /// The point so much further down.
    pub fn down(self, by: u64) -> Point {
        Point::new(self.x, self.y.saturating_add(by))
    }

    /// The point so much further up; where that is beyond the edge, the one at the edge.
    pub fn up(self, by: u64) -> Point {
        Point::new(self.x, self.y.saturating_sub(by))
    }
}

/// What a shape stands for. The head of the document says how each looks, on a light and on a dark background. One that has
/// the colour of a name has the colour's number.
#[derive(Clone, Copy)]
pub enum Class {
    /// The background.
    Page,
    /// Where time passes.
    Band,
    /// A time, and what a clock reads at it.
    Time,
    /// Where the server is silent.
    Silence,
    /// An endpoint while it is up.
    Column,
    /// A node holds a name alone.
    Hold(u8),
    /// A node holds a name with others.
    GroupHold(u8),
    /// The server has a lease of one machine's.
    Lease(u8),
    /// The server has a lease of a group's.
    GroupLease(u8),
    /// A datagram on its way to an endpoint that gets it.
    Arrow,
    /// A datagram on its way to nobody.
    Stray,
    /// A datagram that is never delivered, or a crash.
    Cross,
    /// The words beside a row.
    Words,
    /// What heads the picture, or a column.
    Heading,
}

/// A shape.
#[derive(Drop)]
pub enum Shape {
    /// A box: its corner at the left and above, its width and its height.
    Block(Class, Point, u64, u64),
    /// A line from one point to another.
    Line(Class, Point, Point),
    /// A dot around a point: something happens at an endpoint.
    Dot(Point),
    /// A text that begins at a point.
    Text(Class, Point, String),
    /// A text that begins at a point and goes down: what is said of something that lasts.
    Upright(Point, String),
}

/// Puts a shape over those before it.
pub fn put(shape: Shape, shapes: &mut Vec<Shape>) -> Result<(), AllocError> {
    shapes.push(shape)?;
    Ok(())
}

/// How far the arms of a cross reach.
const ARM: u64 = 5;

/// Puts a cross.
pub fn put_cross(at: Point, shapes: &mut Vec<Shape>) -> Result<(), AllocError> {
    let (above, below) = (at.up(ARM), at.down(ARM));
    let falling = Shape::Line(Class::Cross, above.left(ARM), below.right(ARM));
    put(falling, shapes)?;
    let rising = Shape::Line(Class::Cross, below.left(ARM), above.right(ARM));
    put(rising, shapes)
}

/// Appends a shape, on a line of its own. The words of a text are read back as they are, where every octet of them can be
/// printed.
pub fn write_shape(shape: &Shape, out: &mut String) -> Result<(), AllocError> {
    match shape {
        Shape::Block(class, corner, width, height) => {
            write_block(*class, *corner, *width, *height, out)
        }
        Shape::Line(class, from, to) => write_line(*class, *from, *to, out),
        Shape::Dot(at) => write_dot(*at, out),
        Shape::Text(class, at, words) => write_text(*class, *at, words.as_bytes(), out),
        Shape::Upright(at, words) => write_upright(*at, words.as_bytes(), out),
    }
}

fn write_block(
    class: Class,
    corner: Point,
    width: u64,
    height: u64,
    out: &mut String,
) -> Result<(), AllocError> {
    let (x, y) = (corner.x, corner.y);
    out.push_str("<rect class=\"")?;
    write_class(class, out)?;
    writeln!(
        out,
        "\" x=\"{x}\" y=\"{y}\" width=\"{width}\" height=\"{height}\"/>"
    )
}

fn write_line(class: Class, from: Point, to: Point, out: &mut String) -> Result<(), AllocError> {
    let (x1, y1, x2, y2) = (from.x, from.y, to.x, to.y);
    out.push_str("<line class=\"")?;
    write_class(class, out)?;
    writeln!(out, "\" x1=\"{x1}\" y1=\"{y1}\" x2=\"{x2}\" y2=\"{y2}\"/>")
}

fn write_dot(at: Point, out: &mut String) -> Result<(), AllocError> {
    let (x, y) = (at.x, at.y);
    writeln!(out, "<circle class=\"dot\" cx=\"{x}\" cy=\"{y}\" r=\"4\"/>")
}

fn write_text(class: Class, at: Point, words: &[u8], out: &mut String) -> Result<(), AllocError> {
    let (x, y) = (at.x, at.y);
    out.push_str("<text class=\"")?;
    write_class(class, out)?;
    write!(out, "\" x=\"{x}\" y=\"{y}\">")?;
    write_escaped(words, out)?;
    writeln!(out, "</text>")
}

fn write_upright(at: Point, words: &[u8], out: &mut String) -> Result<(), AllocError> {
    let (x, y) = (at.x, at.y);
    write!(
        out,
        "<text class=\"side\" transform=\"translate({x} {y}) rotate(90)\">"
    )?;
    write_escaped(words, out)?;
    writeln!(out, "</text>")
}

/// Appends what a class is called in the picture.
fn write_class(class: Class, out: &mut String) -> Result<(), AllocError> {
    match class {
        Class::Page => out.push_str("page"),
        Class::Band => out.push_str("band"),
        Class::Time => out.push_str("time"),
        Class::Silence => out.push_str("silence"),
        Class::Column => out.push_str("column"),
        Class::Hold(colour) => write!(out, "hold c{colour}"),
        Class::GroupHold(colour) => write!(out, "hold g{colour}"),
        Class::Lease(colour) => write!(out, "lease c{colour}"),
        Class::GroupLease(colour) => write!(out, "lease dashed c{colour}"),
        Class::Arrow => out.push_str("arrow"),
        Class::Stray => out.push_str("stray"),
        Class::Cross => out.push_str("cross"),
        Class::Words => out.push_str("words"),
        Class::Heading => out.push_str("heading"),
    }
}
