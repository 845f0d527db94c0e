//! Where everything in a picture stands.

ghost use Rattle.std.specs.Prelude.{◌≤◌};

use crate::picture::chart::{Chart, Flight, Row, Spot};
use crate::picture::shape::Point;
use std::alloc::{AllocError, Global};

/// Where the server's column is.
const FIRST_COLUMN: u64 = 200;

/// How far the last of nine columns is from the first.
const SPREAD: u64 = 740;

/// How far two columns are from each other at most.
const STEP_MOST: u64 = 300;

/// The height of a row.
pub const ROW: u64 = 26;

/// How far below the middle of its row a datagram leaves that goes to the right, so that its words are clear of it.
const DEPARTURE: u64 = 20;

/// The height of a band, in which time passes.
pub const BAND: u64 = 22;

/// Where the first line of names is.
pub const NAMES_TOP: u64 = 66;

/// The height of a line of names, and how many stand in one.
pub const NAMES_LINE: u64 = 18;

pub const NAMES_IN_LINE: usize = 6;

/// What the headings of the columns take.
const HEADINGS: u64 = 52;

/// Where a row stands.
#[derive(Clone, Copy)]
pub struct Place {
    /// Where the band above it begins, if time passes there.
    pub band: Option<u64>,
    /// The middle of the row.
    pub y: u64,
}

/// Where rows stand, and where the columns begin and end.
#[derive(Drop)]
pub struct Layout {
    pub places: Vec<Place>,
    /// How far two columns are from each other.
    pub step: u64,
    /// Where the columns begin.
    pub head: u64,
    /// Where they end.
    pub foot: u64,
}

/// Lays out the rows of a chart, one below the other, each with a band above it where a clock went on since the one before.
pub fn lay_out(alloc: Global, chart: &Chart) -> Result<Layout, AllocError> {
    let head = head_of(chart.names.len());
    let mut places = Vec::new(alloc);
    let mut y = head;
    let mut before = None;
    'rows: for row in chart.rows.iter() {
        let band = if is_later(before, row) { Some(y) } else { None };
        if band.is_some() {
            y = y.saturating_add(BAND);
        }
        places.push(Place {
            band,
            y: y.saturating_add(ROW / 2),
        })?;
        y = y.saturating_add(height_of(row, chart.flights.as_slice()));
        before = Some(row);
    }
    Ok(Layout {
        places,
        step: step_of(chart.addrs.len()),
        head,
        foot: y.saturating_add(ROW),
    })
}

/// Where the columns begin, below the lines of so many names.
fn head_of(names: usize) -> u64 {
    let lines = names / NAMES_IN_LINE + 1;
    (lines as u64)
        .saturating_mul(NAMES_LINE)
        .saturating_add(NAMES_TOP + HEADINGS)
}

/// Whether a clock went on between a row and the one before it; so it is at the first row.
fn is_later(before: Option<&Row>, row: &Row) -> bool {
    match before {
        Some(before) => before.clock != row.clock || before.readings != row.readings,
        None => true,
    }
}

/// The height of a row: more where a datagram leaves to the right, and where one leaves that never comes, which has a row of its
/// own.
fn height_of(row: &Row, flights: &[Flight]) -> u64 {
    match flight_of(row, flights) {
        Some(flight) => {
            let stub = if flight.ended { 0 } else { ROW };
            ROW + departure_of(flight) + stub
        }
        None => ROW,
    }
}

/// The datagram that was sent in a row.
pub fn flight_of<'a>(row: &Row, flights: &'a [Flight]) -> Option<&'a Flight> {
    flights.get(row.sends?)
}

/// Whether a datagram goes to the right: to an endpoint of a greater number, to the edge, or around to the endpoint that sent it.
pub fn goes_right(flight: &Flight) -> bool {
    match flight.to {
        Some(to) => flight.from <= to,
        None => true,
    }
}

/// How far below the middle of its row a datagram leaves.
fn departure_of(flight: &Flight) -> u64
    ensures { result ≤ 20 }
{
    if goes_right(flight) { DEPARTURE } else { 0 }
}

/// How far two columns are from each other, among so many endpoints.
fn step_of(ends: usize) -> u64 {
    if ends < 2 {
        return STEP_MOST;
    }
    (SPREAD / (ends as u64 - 1)).min(STEP_MOST)
}

impl Layout {
    /// Where the column of an endpoint is.
    pub fn x(&self, column: usize) -> u64 {
        (column as u64)
            .saturating_mul(self.step)
            .saturating_add(FIRST_COLUMN)
    }

    /// The middle of a row.
    pub fn y(&self, row: usize) -> u64 {
        match self.places.as_slice().get(row) {
            Some(place) => place.y,
            None => self.foot,
        }
    }

    /// Where a column and the middle of a row meet.
    pub fn point(&self, column: usize, row: usize) -> Point {
        Point::new(self.x(column), self.y(row))
    }

    /// Where a datagram leaves its row.
    pub fn departure(&self, flight: &Flight) -> Point {
        self.point(flight.from, flight.row)
            .down(departure_of(flight))
    }

    /// Where something beside a column begins or ends.
    pub fn spot(&self, chart: &Chart, column: usize, spot: Spot) -> u64 {
        match spot {
            Spot::Row(row) => self.y(row),
            Spot::Reading(reading) => self.time(chart.rows.as_slice(), column, reading),
        }
    }

    /// Where an endpoint's own clock comes to so many milliseconds: in the band above the first row at which it has come there, as
    /// far down as it is from the reading before to the one after; or where the columns end.
    fn time(&self, rows: &[Row], column: usize, reading: u64) -> u64 {
        let next = first_from(rows, column, reading);
        let Some(place) = self.places.as_slice().get(next) else {
            return self.foot;
        };
        let Some(band) = place.band else {
            return place.y;
        };
        let late = reading_at(rows, column, next);
        let early = reading_at(rows, column, next.saturating_sub(1));
        let part = reading.saturating_sub(early).saturating_mul(BAND);
        band.saturating_add(part / late.saturating_sub(early).max(1))
            .min(place.y)
    }
}

/// What an endpoint reads at a row.
fn reading_at(rows: &[Row], column: usize, number: usize) -> u64 {
    match rows.get(number) {
        Some(row) => row.readings.as_slice().get(column).copied().unwrap_or(0),
        None => 0,
    }
}

/// The number of the first row at which an endpoint reads this or more, by halves; how many rows there are where there is none.
fn first_from(rows: &[Row], column: usize, reading: u64) -> usize {
    let mut low = 0;
    let mut high = rows.len();
    'halves: while low < high {
        let middle = low + (high - low) / 2;
        if reading_at(rows, column, middle) >= reading {
            high = middle;
        } else {
            low = middle + 1;
        }
    }
    low
}
