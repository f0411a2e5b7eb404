//! The lines of LINES, and the parts that are joined of them.

ghost use Rattle.std.specs.Prelude.{◌≡◌, IfErr, IfOk};
ghost use Rattle.pcap_parts.specs.Selecting.{Selects};
ghost use Rattle.cli_parts.specs.declared.lines.LinesFault.TheVariants.{NoMemory};
ghost use Rattle.cli_parts.specs.Selected.{size_of, IsLineFault, IsLinesFault, IsPartsFault, IsSelection, SayParts};

use crate::line::read_part;
use line_text::fields::first_line;
use pcap_parts::again::{Stretch, stretches_again};
use pcap_parts::join::{FIRST_RECORD, Misfit};
use pcap_parts::part::PartCut;
use pcap_parts::select::{Selection, SelectionFault, select_parts};
use std::alloc::{AllocError, AllocFailed, Global};

/// Why no parts are joined.
#[derive(Debug, Drop)]
pub enum LinesFault {
    /// This line, from 1, is none that is printed of a part.
    Line(usize),
    /// The parts do not make a whole capture.
    Misfit(Misfit),
    /// A part ends inside a record, and the capture goes on: these stretches have to be cut again.
    Again(Vec<Stretch>),
    NoMemory,
}

impl From<AllocError> for LinesFault {
    ghost from_gives = { λ _ e. e ≡ NoMemory };

    fn from(_e: AllocError) -> LinesFault {
        LinesFault::NoMemory
    }
}

impl<T: Drop> From<AllocFailed<T>> for LinesFault {
    ghost from_gives = { λ _ e. e ≡ NoMemory };

    fn from(_e: AllocFailed<T>) -> LinesFault {
        LinesFault::NoMemory
    }
}

/// The part of each line.
fn parts_of(alloc: Global, text: &[u8]) -> Result<Vec<PartCut<'_>>, LinesFault>
    ensures said { IfOk result (λ parts. SayParts text.now parts.items) }
    ensures fault { IfErr result (IsLineFault text.now) }
{
    let mut parts = Vec::new(alloc);
    let mut rest = text;
    while !rest.is_empty() {
        let (line, after) = first_line(rest);
        let Some(part) = read_part(alloc, line)? else {
            return Err(LinesFault::Line(parts.len().saturating_add(1)));
        };
        parts.push(part)?;
        rest = after;
    }
    Ok(parts)
}

/// How many bytes the capture of these parts has: what the first of them says.
fn size_of(parts: &[PartCut<'_>]) -> u64
    ensures { result ≡ size_of parts.now }
{
    match parts.first() {
        Some(part) => part.size,
        None => FIRST_RECORD,
    }
}

/// The parts that make a whole capture, of all; if one ends inside a record though the capture goes on, what has to be cut again.
fn select<'a>(alloc: Global, parts: &[PartCut<'a>]) -> Result<Selection<'a>, LinesFault>
    ensures selects { IfOk result (λ selection. Selects (size_of parts.now) parts.now selection.parts.items selection.whole) }
    ensures fault { IfErr result (IsPartsFault parts.now) }
{
    let size = size_of(parts);
    match select_parts(alloc, parts, size) {
        Ok(selection) => Ok(selection),
        Err(SelectionFault::Misfit(Misfit::CutOff(first, end))) => {
            let cut_off = Stretch { first, end };
            match stretches_again(alloc, parts, cut_off, size) {
                Ok(again) => Err(LinesFault::Again(again)),
                Err(_) => Err(LinesFault::NoMemory),
            }
        }
        Err(SelectionFault::Misfit(misfit)) => Err(LinesFault::Misfit(misfit)),
        Err(SelectionFault::NoMemory) => Err(LinesFault::NoMemory),
    }
}

/// The parts that make a whole capture, of those that LINES says: each line is the one that is printed of a part.
pub fn select_lines(alloc: Global, text: &[u8]) -> Result<Selection<'_>, LinesFault>
    ensures selects { IfOk result (IsSelection text.now) }
    ensures fault { IfErr result (IsLinesFault text.now) }
{
    match parts_of(alloc, text) {
        Ok(parts) => select(alloc, parts.as_slice()),
        Err(fault) => Err(fault),
    }
}
