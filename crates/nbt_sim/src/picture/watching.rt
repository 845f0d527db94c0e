//! What a chart keeps of each line of a script.

use crate::instruction::Instruction;
use crate::picture::chart::{Chart, Fate, Flight, Row, Sign};
use crate::picture::said::{claimed_in, write_asked, write_named, write_said};
use crate::picture::sketch::{Sketch, readings_of};
use crate::report::Report;
use nbt_name::Addr;
use nbt_text::write_address;
use nbt_world::{Event, Outcome, World};
use std::alloc::AllocError;

impl Sketch {
    /// Keeps what an instruction did, of which this came: `world` is the one after it, and `line` what it printed. When out of
    /// memory, only some of it may be kept.
    pub fn watch(
        &mut self,
        instruction: &Instruction,
        report: &Report,
        world: &World,
        line: &str,
    ) -> Result<(), AllocError> {
        match instruction {
            Instruction::Config(config, _) => self.begin(*config, world),
            Instruction::At(_) | Instruction::Advance { .. } => {
                self.pass(world);
                Ok(())
            }
            Instruction::Happens(event) => match report {
                Report::Event(outcome) => self.watch_event(event, *outcome, world, line),
                _ => Ok(()),
            },
            Instruction::Holders(_) | Instruction::Kept | Instruction::Timely => {
                self.note(line, world)
            }
        }
    }

    /// Puts a row without words where a clock went on after the last row, so that what was over by then is seen.
    pub fn finish(&mut self, world: &World) -> Result<(), AllocError> {
        let is_new = match self.chart.rows.as_slice().last() {
            Some(row) => row.clock != world.clock().get() || row.readings != readings_of(world),
            None => false,
        };
        if is_new {
            return self.note("", world);
        }
        Ok(())
    }

    /// Puts a row with words alone.
    fn note(&mut self, line: &str, world: &World) -> Result<(), AllocError> {
        let words = String::from_str(self.alloc(), line)?;
        self.put(0, Sign::Note, words, None, world)
    }

    /// Keeps what an event did: its row, the datagram that was sent, and what begins or ends with it.
    fn watch_event(
        &mut self,
        event: &Event,
        outcome: Outcome,
        world: &World,
        line: &str,
    ) -> Result<(), AllocError> {
        let mut words = String::new(self.alloc());
        write_event(event, outcome, &self.chart, &mut words)?;
        if !went_well(outcome) {
            write!(words, ": {line}")?;
        }
        let sends = self.keep_sent(world)?;
        let column = column_of(event, &self.chart);
        self.put(column, sign_of(event, outcome), words, sends, world)?;
        self.keep_spans(event, outcome, world)
    }

    /// Keeps the datagram that was sent at this event, if one was, and returns its number: its row is the next one.
    fn keep_sent(&mut self, world: &World) -> Result<Option<usize>, AllocError> {
        let number = self.chart.flights.len();
        let Some(datagram) = world.sent().get(number) else {
            return Ok(None);
        };
        let mut words = String::new(self.alloc());
        write_said(datagram.octets.as_slice(), &mut words)?;
        let flight = Flight {
            row: self.chart.rows.len(),
            from: self.chart.end_at(datagram.from).unwrap_or(0),
            to: self.chart.end_at(datagram.to),
            words,
            ended: false,
        };
        self.chart.flights.push(flight)?;
        Ok(Some(number))
    }

    /// Puts a row; one about an endpoint that isn't there has its words alone.
    fn put(
        &mut self,
        number: usize,
        sign: Sign,
        words: String,
        sends: Option<usize>,
        world: &World,
    ) -> Result<(), AllocError> {
        let is_end = number < self.chart.addrs.len();
        self.chart.rows.push(Row {
            clock: world.clock().get(),
            readings: readings_of(world),
            column: if is_end { number } else { 0 },
            sign: if is_end { sign } else { Sign::Note },
            words,
            sends,
        })?;
        Ok(())
    }

    /// Keeps what begins or ends with an event, after its row is put.
    fn keep_spans(
        &mut self,
        event: &Event,
        outcome: Outcome,
        world: &World,
    ) -> Result<(), AllocError> {
        match event {
            Event::Start(number) if outcome == Outcome::Done => self.start(*number, world),
            Event::Crash(number) if outcome == Outcome::Done => {
                self.stop(*number);
                Ok(())
            }
            Event::Resume if outcome == Outcome::Done => self.resume(world),
            Event::Release { node, name } => self.look(world, *node, name, 0),
            Event::Deliver(number) if outcome != Outcome::Nobody => {
                if let Some(flight) = self.chart.flights.as_mut_slice().get_mut(*number) {
                    flight.ended = true;
                }
                match world.sent().get(*number) {
                    Some(datagram) => {
                        let column = column_of(event, &self.chart);
                        self.look_at(world, column, datagram.octets.as_slice())
                    }
                    None => Ok(()),
                }
            }
            Event::Stranger { to, octets, .. } => self.look_at(world, *to, octets.as_slice()),
            Event::Beside { to, octets, .. } => self.look_at(world, *to, octets.as_slice()),
            _ => Ok(()),
        }
    }

    /// Looks at what a datagram may have changed at the endpoint that it came to.
    fn look_at(&mut self, world: &World, column: usize, octets: &[u8]) -> Result<(), AllocError> {
        match claimed_in(octets) {
            Some((name, addr)) => self.look(world, column, &name, addr),
            None => Ok(()),
        }
    }
}

/// Whether an event did what it is for.
fn went_well(outcome: Outcome) -> bool {
    matches!(outcome, Outcome::Done | Outcome::Sent(_) | Outcome::Taken)
}

/// The endpoint that an event is about; 0 where it is about none.
fn column_of(event: &Event, chart: &Chart) -> usize {
    match event {
        Event::Tick(_) | Event::Advance { .. } | Event::Resume => 0,
        Event::Start(number) | Event::Crash(number) | Event::Poll(number) => *number,
        Event::Ask { node, .. } | Event::Release { node, .. } => *node,
        Event::Resolve { node, .. } | Event::NameStatus { node, .. } => *node,
        Event::Deliver(number) => match chart.flights.as_slice().get(*number) {
            Some(flight) => flight.to.unwrap_or(0),
            None => 0,
        },
        Event::Stranger { to, .. } | Event::Beside { to, .. } => *to,
    }
}

/// What stands in an event's row.
fn sign_of(event: &Event, outcome: Outcome) -> Sign {
    match event {
        Event::Crash(_) if outcome == Outcome::Done => Sign::Crash,
        Event::Deliver(number) => sign_of_coming(Some(*number), outcome),
        Event::Stranger { .. } | Event::Beside { .. } => sign_of_coming(None, outcome),
        _ => Sign::Mark,
    }
}

/// What stands in the row of a datagram that comes, by its number, or from outside of the network.
fn sign_of_coming(number: Option<usize>, outcome: Outcome) -> Sign {
    match outcome {
        Outcome::Nobody => Sign::Note,
        Outcome::Down => Sign::Comes(number, Fate::Missed),
        Outcome::Lost => Sign::Comes(number, Fate::Lost),
        _ => Sign::Comes(number, Fate::Accepted),
    }
}

/// Appends what an event is: of a delivery what the datagram says, where it is for an endpoint.
fn write_event(
    event: &Event,
    outcome: Outcome,
    chart: &Chart,
    words: &mut String,
) -> Result<(), AllocError> {
    match event {
        Event::Tick(_) | Event::Advance { .. } => Ok(()),
        Event::Start(_) => words.push_str("start"),
        Event::Crash(_) => words.push_str("crash"),
        Event::Resume => words.push_str("resume"),
        Event::Ask {
            name,
            kind,
            ttl,
            ..
        } => write_asked(name, *kind, *ttl, words),
        Event::Release { name, .. } => write_named("release ", name, words),
        Event::Resolve { name, .. } => write_named("resolve ", name, words),
        Event::NameStatus { name, .. } => write_named("status ", name, words),
        Event::Poll(_) => words.push_str("poll"),
        Event::Deliver(number) => match chart.flights.as_slice().get(*number) {
            Some(flight) if outcome != Outcome::Nobody => words.push_str(flight.words.as_str()),
            _ => write!(words, "deliver {number}"),
        },
        Event::Stranger { from, octets, .. } => write_coming(*from, octets.as_slice(), words),
        Event::Beside { from, octets, .. } => write_coming(*from, octets.as_slice(), words),
    }
}

/// Appends the address that a datagram came from, and what it says.
fn write_coming(from: Addr, octets: &[u8], words: &mut String) -> Result<(), AllocError> {
    write_address(from, words)?;
    words.push_str(": ")?;
    write_said(octets, words)
}
