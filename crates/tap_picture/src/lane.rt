//! One listener's lane: bars over the steps, and below them the names of the steps.

use crate::columns::{Column, Columns};
use crate::frame::{BARS, MARGIN};
use listener::Fed;
use std::io;
use std::io::Write;
use tap_steps::{Answer, PlacedPacket, Step};

/// The bars' own lengths, in which a height is a number of bytes. From the top: a mark of what
/// became of the step, the hold, and the store with room above it for a record that exceeds the
/// capacity.
#[derive(Clone, Copy)]
pub struct Scale {
    /// The bytes that are drawn of a buffer: its capacity, or less if little of it is ever filled,
    /// but not nothing.
    pub drawn: u64,
    mark: u64,
}

/// How far apart two steps are.
const STEP: u64 = 10;

impl Scale {
    /// The scale of buffers of this capacity that have at most `highest` bytes.
    pub fn new(capacity: usize, highest: u64) -> Scale {
        let capacity = capacity as u64;
        let drawn = match highest {
            0 => capacity,
            _ => highest.saturating_mul(2).min(capacity),
        };
        let drawn = drawn.max(1);
        Scale {
            drawn,
            mark: drawn / 8 + 1,
        }
    }

    /// The floor of the hold's bars.
    fn hold_floor(&self) -> u64 {
        self.mark.saturating_mul(2).saturating_add(self.drawn)
    }

    /// The floor of the store's bars.
    fn store_floor(&self) -> u64 {
        let room = self.drawn / 2;
        self.hold_floor()
            .saturating_add(room)
            .saturating_add(self.drawn)
    }
}

/// What became of a step, as the class of its mark.
fn class_of(answer: Answer) -> &'static str {
    match answer {
        Answer::Arrived(Fed::Passed) => "passed",
        Answer::Arrived(Fed::Stored) => "stored",
        Answer::Arrived(Fed::Held) => "turned",
        Answer::Arrived(Fed::Rotated) => "turned",
        Answer::Arrived(Fed::Dropped) => "dropped",
        Answer::Arrived(Fed::Closed) => "closed",
        Answer::Flushed(true) => "turned",
        Answer::Read(true) => "read",
        Answer::Flushed(false) => "idle",
        Answer::Read(false) => "idle",
        Answer::Closed => "closed",
    }
}

/// A bar on a floor.
fn write_bar<O: Write>(
    class: &str,
    column: &Column<'_>,
    floor: u64,
    height: u64,
    out: &mut O,
) -> io::Result<()> {
    let (x, height) = (column.index.saturating_mul(STEP), height.min(floor));
    let y = floor - height;
    writeln!(
        out,
        "<rect class=\"{class}\" x=\"{x}\" y=\"{y}\" width=\"9\" height=\"{height}\"/>"
    )
}

/// What a step is called, and the listener that it names.
fn words_of(step: Step) -> (&'static str, Option<u32>) {
    match step {
        Step::Arrive => ("arrive", None),
        Step::Flush(l) => ("flush", Some(l)),
        Step::Read(l) => ("read", Some(l)),
        Step::Close(l) => ("close", Some(l)),
    }
}

/// The title of a step: its number as a line of SCRIPT, from 1, its words and its packet, and what
/// it found.
fn write_title<O: Write>(column: &Column<'_>, out: &mut O) -> io::Result<()> {
    let line = column.index.wrapping_add(1);
    let (word, listener) = words_of(column.step);
    write!(out, "<title>step {line} {word}")?;
    if let Some(l) = listener {
        write!(out, " {l}")?;
    }
    if let Some(placed) = column.packet {
        let PlacedPacket { capture, place, .. } = placed;
        write!(out, " capture {capture} place {place}")?;
    }
    let (load, held) = (column.load, column.hold_load);
    write!(out, ": {load} stored, {held} held")?;
    if let Some(answer) = column.answer {
        write!(out, ", {}", class_of(answer))?;
    }
    writeln!(out, "</title>")
}

/// The record of a packet that the filter accepts, on top of the store.
fn write_record<O: Write>(column: &Column<'_>, scale: &Scale, out: &mut O) -> io::Result<()> {
    let class = match column.answer {
        Some(Answer::Arrived(Fed::Dropped)) => "over",
        Some(Answer::Arrived(Fed::Stored | Fed::Held | Fed::Rotated)) => "record",
        _ => return Ok(()),
    };
    let floor = scale.store_floor().saturating_sub(column.load);
    let room = scale.drawn.saturating_add(scale.drawn / 2);
    let most = room.saturating_sub(column.load);
    write_bar(class, column, floor, column.more.min(most), out)
}

/// The bars of a step.
fn write_column<O: Write>(column: &Column<'_>, scale: &Scale, out: &mut O) -> io::Result<()> {
    writeln!(out, "<g>")?;
    write_title(column, out)?;
    if let Some(answer) = column.answer {
        write_bar(class_of(answer), column, scale.mark, scale.mark, out)?;
    }
    write_bar("hold", column, scale.hold_floor(), column.hold_load, out)?;
    write_bar("store", column, scale.store_floor(), column.load, out)?;
    write_record(column, scale, out)?;
    writeln!(out, "</g>")
}

/// The room of a buffer, drawn below its bars.
fn write_room<O: Write>(width: u64, floor: u64, scale: &Scale, out: &mut O) -> io::Result<()> {
    let (y, drawn) = (floor.saturating_sub(scale.drawn), scale.drawn);
    writeln!(
        out,
        "<rect class=\"room\" x=\"0\" y=\"{y}\" width=\"{width}\" height=\"{drawn}\"/>"
    )
}

/// The bars of all steps, in a frame of this many pixels.
pub fn write_bars<O: Write>(
    mut columns: Columns<'_>,
    steps: &[Step],
    scale: &Scale,
    width: u64,
    out: &mut O,
) -> io::Result<()> {
    let (wide, high) = (
        (steps.len() as u64).saturating_mul(STEP),
        scale.store_floor(),
    );
    writeln!(
        out,
        "<svg x=\"{MARGIN}\" y=\"24\" width=\"{width}\" height=\"{BARS}\" viewBox=\"0 0 {wide} {high}\" preserveAspectRatio=\"none\">"
    )?;
    write_room(wide, scale.hold_floor(), scale, out)?;
    write_room(wide, scale.store_floor(), scale, out)?;
    for step in steps {
        write_column(&columns.next(*step), scale, out)?;
    }
    writeln!(out, "</svg>")
}

/// The name of a step below its bars: the place of a packet, or a letter.
fn write_name<O: Write>(column: &Column<'_>, step_width: u64, out: &mut O) -> io::Result<()> {
    let x = column
        .index
        .saturating_mul(step_width)
        .saturating_add(MARGIN + 9);
    let letter = match (column.step, column.answer) {
        (_, None) => return Ok(()),
        (Step::Arrive, _) => "",
        (Step::Flush(_), _) => "F",
        (Step::Read(_), _) => "R",
        (Step::Close(_), _) => "C",
    };
    write!(out, "<text class=\"name\" x=\"{x}\" y=\"188\">{letter}")?;
    if let Some(placed) = column.packet {
        write!(out, "{}", placed.place)?;
    }
    writeln!(out, "</text>")
}

/// The names of all steps that concern the listener.
pub fn write_names<O: Write>(
    mut columns: Columns<'_>,
    steps: &[Step],
    step_width: u64,
    out: &mut O,
) -> io::Result<()> {
    for step in steps {
        write_name(&columns.next(*step), step_width, out)?;
    }
    Ok(())
}
