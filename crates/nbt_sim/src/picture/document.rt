//! A picture as a whole: what stands before its shapes, the shapes, and what stands after them.

use crate::picture::looks::{HEAD, LOOKS, VIEW};
use crate::picture::shape::{Shape, write_shape};
use std::alloc::AllocError;

/// The width of a picture, in its own units.
pub const WIDTH: u64 = 1200;

/// Appends the picture of this height, `WIDTH` wide, that has these shapes: a head, the shapes in order, each whole, and a tail.
pub fn write_document(height: u64, shapes: &[Shape], out: &mut String) -> Result<(), AllocError> {
    write!(out, "{HEAD}{height}{VIEW}{height}{LOOKS}")?;
    for shape in shapes {
        write_shape(shape, out)?;
    }
    writeln!(out, "</svg>")
}
