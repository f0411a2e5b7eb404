//! The picture as a whole.

use crate::columns::{Columns, highest};
use crate::frame::{BARS, HEAD, LANE, are_named, characters, page_width, step_width};
use crate::lane::{Scale, write_bars, write_names};
use listener::Mode;
use std::io;
use std::io::Write;
use tap_steps::{Answered, Filter, Spec, Step, Trace};

/// The colours: blue is the store, green the hold, red a drop.
const STYLE: &str = "\
text{font:12px sans-serif;fill:#222}\n\
.name{font-size:9px;text-anchor:middle}\n\
.room{fill:#f1f1f1}\n\
.store,.stored{fill:#3b6fb6}\n\
.record{fill:#9dbce6}\n\
.hold{fill:#5a9e4b}\n\
.turned{fill:#e0a100}\n\
.read{fill:#2e7d32}\n\
.dropped,.over{fill:#d32f2f}\n\
.passed,.idle{fill:#cfcfcf}\n\
.closed{fill:#222}\n";

/// What the colours mean, each with its class.
static LEGEND: [(&str, &str); 8] = [
    ("store", "store"),
    ("record", "packet that comes"),
    ("hold", "hold"),
    ("turned", "store becomes hold"),
    ("read", "hold is read"),
    ("dropped", "dropped"),
    ("passed", "rejected, or nothing to do"),
    ("closed", "closed"),
];

/// How many characters of a filter are shown at least.
const LEAST_SHOWN: u64 = 8;

/// What ends a filter that is cut.
const CUT: &str = "..";

/// The escape of a character in XML, if it needs one.
fn escape_of(character: char) -> Option<&'static str> {
    match character {
        '<' => Some("&lt;"),
        '>' => Some("&gt;"),
        '&' => Some("&amp;"),
        '\0'..=' ' => Some(" "),
        _ => None,
    }
}

/// Writes a text so that XML reads it as that text.
fn write_escaped<O: Write>(text: &str, out: &mut O) -> io::Result<()> {
    for character in text.chars() {
        match escape_of(character) {
            Some(escape) => write!(out, "{escape}")?,
            None => write!(out, "{character}")?,
        }
    }
    Ok(())
}

fn write_legend<O: Write>(out: &mut O) -> io::Result<()> {
    let mut x: u64 = 10;
    for (class, words) in &LEGEND {
        writeln!(
            out,
            "<rect class=\"{class}\" x=\"{x}\" y=\"14\" width=\"12\" height=\"12\"/><text x=\"{}\" y=\"24\">{words}</text>",
            x.saturating_add(16)
        )?;
        let width = (words.len() as u64).saturating_mul(6);
        x = x.saturating_add(width).saturating_add(40);
    }
    Ok(())
}

/// What the picture is, in words.
fn write_description<O: Write>(steps: usize, listeners: usize, out: &mut O) -> io::Result<()> {
    writeln!(
        out,
        "<title>bpftap steps: the buffers of each listener, step by step</title>"
    )?;
    writeln!(
        out,
        "<desc>Steps: {steps}. Listeners: {listeners}. Each listener has a lane, with a column for each step: at the top a mark of what became of the step, below it the bytes of the hold, and at the bottom those of the store. The title of a column says the same in words.</desc>"
    )
}

/// The size of the picture, what it is, the colours and what they mean.
fn write_head<O: Write>(width: u64, steps: usize, listeners: usize, out: &mut O) -> io::Result<()> {
    let wide = page_width(width);
    let high = (listeners as u64).saturating_mul(LANE).saturating_add(HEAD);
    writeln!(
        out,
        "<svg xmlns=\"http://www.w3.org/2000/svg\" width=\"{wide}\" height=\"{high}\" viewBox=\"0 0 {wide} {high}\">"
    )?;
    write_description(steps, listeners, out)?;
    writeln!(out, "<style>{STYLE}</style>")?;
    writeln!(
        out,
        "<rect width=\"{wide}\" height=\"{high}\" fill=\"#fff\"/>"
    )?;
    write_legend(out)
}

/// A writer that keeps nothing but the number of bytes.
#[derive(Drop)]
struct Length(u64);

impl Write for Length {
    fn write(&mut self, from: &[u8]) -> io::Result<usize> {
        self.0 = self.0.saturating_add(from.len() as u64);
        Ok(from.len())
    }

    fn flush(&mut self) -> io::Result<()> {
        Ok(())
    }
}

/// The text shown for the filter of a listener.
fn filter_text(filter: &Filter) -> &str {
    match filter {
        Filter::Text(text) if text.is_empty() => "all packets",
        Filter::Text(text) => text.as_str(),
        Filter::Program(_) => "a program",
    }
}

/// What a listener has beside its filter.
fn write_terms<O: Write>(l: u32, spec: &Spec, out: &mut O) -> io::Result<()> {
    let mode = match spec.mode {
        Mode::Buffered => "",
        Mode::Immediate => ", immediate",
    };
    write!(
        out,
        "listener {l}: two buffers of {} bytes{mode}, at most {} bytes of a packet: ",
        spec.capacity, spec.snap
    )
}

/// How much of the buffers is drawn, if that is not all.
fn write_drawn<O: Write>(spec: &Spec, drawn: u64, out: &mut O) -> io::Result<()> {
    if drawn < spec.capacity as u64 {
        write!(out, " (drawn up to {drawn} bytes)")
    } else {
        Ok(())
    }
}

/// How many characters of a filter there is room for on its line.
fn room_for_filter(l: u32, spec: &Spec, drawn: u64, characters: u64) -> io::Result<u64> {
    let mut rest = Length(CUT.len() as u64);
    write_terms(l, spec, &mut rest)?;
    write_drawn(spec, drawn, &mut rest)?;
    Ok(characters.saturating_sub(rest.0).max(LEAST_SHOWN))
}

/// Writes what a listener was asked for, on one line. A filter that is too long for it is cut, and
/// the whole of it is the line's title.
fn write_asked<O: Write>(
    l: u32,
    spec: &Spec,
    drawn: u64,
    characters: u64,
    out: &mut O,
) -> io::Result<()> {
    let filter = filter_text(&spec.filter);
    let room = room_for_filter(l, spec, drawn, characters)?;
    write!(out, "<text x=\"10\" y=\"14\">")?;
    match filter.split_at_checked(room as usize) {
        Some((shown, rest)) if !rest.is_empty() => {
            write!(out, "<title>")?;
            write_escaped(filter, out)?;
            write!(out, "</title>")?;
            write_terms(l, spec, out)?;
            write_escaped(shown, out)?;
            write!(out, "{CUT}")?;
        }
        _ => {
            write_terms(l, spec, out)?;
            write_escaped(filter, out)?;
        }
    }
    write_drawn(spec, drawn, out)?;
    let (hold, store) = (24 + BARS / 3, 24 + BARS - BARS / 4);
    writeln!(
        out,
        "</text>\n<text x=\"10\" y=\"{hold}\">hold</text>\n<text x=\"10\" y=\"{store}\">store</text>"
    )
}

/// The l-th listener of a replay, and what it answered.
#[derive(Clone, Copy)]
struct DrawnListener<'a> {
    l: u32,
    spec: &'a Spec,
    trace: &'a Trace,
    answers: &'a [Answered],
}

impl<'a> DrawnListener<'a> {
    /// Its columns, before the first step.
    fn columns(&self) -> Columns<'a> {
        Columns::new(self.l, self.trace, self.answers)
    }

    /// Writes its lane.
    fn write_lane<O: Write>(&self, steps: &[Step], out: &mut O) -> io::Result<()> {
        let y = u64::from(self.l).saturating_mul(LANE).saturating_add(HEAD);
        let pixels = step_width(steps.len());
        let width = (steps.len() as u64).saturating_mul(pixels);
        writeln!(out, "<g transform=\"translate(0,{y})\">")?;
        let scale = Scale::new(self.spec.capacity, highest(self.columns(), steps));
        write_asked(self.l, self.spec, scale.drawn, characters(width), out)?;
        write_bars(self.columns(), steps, &scale, width, out)?;
        if are_named(steps.len()) {
            write_names(self.columns(), steps, pixels, out)?;
        }
        writeln!(out, "</g>")
    }
}

/// Writes a picture of a replay as SVG: for each listener a lane over the steps, with what each
/// step found in the store and in the hold, and a mark of what became of it. `trace` is what
/// [`tap::trace`] returns for these listeners and steps.
///
/// In a lane the height of a bar is a number of bytes (`viewBox`), so listeners of different
/// capacities have scales of their own; if little of a buffer is ever filled, only its lower part
/// is drawn. Each step has a `title` with its line of SCRIPT, its packet, and both loads. With at
/// most 60 steps the place of each packet is printed below it. The picture has a `title` and a
/// `desc` that say what it shows. An error is that of `out`.
pub fn write_picture<O: Write>(
    specs: &[Spec],
    steps: &[Step],
    trace: &Trace,
    out: &mut O,
) -> io::Result<()> {
    let width = (steps.len() as u64).saturating_mul(step_width(steps.len()));
    write_head(width, steps.len(), specs.len(), out)?;
    let mut l: u32 = 0;
    for (spec, answers) in specs.iter().zip(&trace.answers) {
        let listener = DrawnListener {
            l,
            spec,
            trace,
            answers: answers.as_slice(),
        };
        listener.write_lane(steps, out)?;
        l = l.wrapping_add(1);
    }
    writeln!(out, "</svg>")
}
