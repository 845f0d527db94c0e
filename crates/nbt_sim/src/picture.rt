//! A run of a script as a picture (our profile): one SVG in place of the lines that the script prints.
//!
//! A script is played as [`crate::play`] plays it. A chart keeps what a reader wants to look at: rows of what happened, the
//! datagrams with where they came from and how they ended, and what lasted beside the column of an endpoint. It is laid out
//! and drawn as shapes, each of which is an element of an SVG document (SVG 1.1).
//!
//! Only people look at a picture, so no contract says what stands in it: runs of `nbt_cases` hold it word for word. How a text
//! is written into it is a contract, and that it is read back a law (`crate::laws`).

mod chart;
mod charting;
mod document;
mod drawing;
mod escaping;
mod layout;
mod looks;
mod rows;
mod said;
mod shape;
mod sketch;
mod spans;
mod top;
mod watching;

pub use drawing::draw;
