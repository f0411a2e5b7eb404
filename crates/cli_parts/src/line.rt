//! The line of a range, and that of a part that was cut.

ghost use Rattle.std.specs.Prelude.{◌≡◌, ◌++◌, IfNone, IfOk, IfSome, OnOk, codes, string_bytes};
ghost use Rattle.std.specs.Io.KnownBytes.{Appends};
ghost use Rattle.line_text.specs.Sending.{Takes};
ghost use Rattle.line_text.specs.declared.form.LineForm.TheVariants.{Text};
ghost use Rattle.pcap_parts.specs.declared.part.PartCut.{PartCut};
ghost use Rattle.cli_parts.specs.Lines.{IsPartLine, end_text, part_text, range_line, range_text};
ghost use Rattle.cli_parts.specs.Ranges.{stretch_lines};

use crate::fields::part_in;
use line_text::LineForm;
use line_text::sending::send;
use pcap_cut::cut::Tally;
use pcap_parts::again::Stretch;
use pcap_parts::part::PartCut;
use savefile::Fault;
use std::alloc::{AllocError, Global};
use std::io;
use std::io::Write;

/// Appends a range as `--bytes` takes it: `FIRST-END`.
#[tactic(auto, unfolding(crate::specs::Lines::range_text))]
fn put_range(line: &mut String, first: u64, end: u64) -> Result<(), AllocError>
    ensures { OnOk result (string_bytes line.new ≡ string_bytes line.old ++ range_text first end) }
{
    write!(line, "{first}-{end}")
}

/// Appends the line of a range.
fn put_range_line(form: LineForm, line: &mut String, first: u64, end: u64) -> Result<(), AllocError>
    ensures { OnOk result (string_bytes line.new ≡ string_bytes line.old ++ range_line form first end) }
{
    match form {
        LineForm::Text => {
            put_range(line, first, end)?;
            line.push_str("\n")
        }
        LineForm::Json => write!(line, "{{\"first\":{first},\"end\":{end}}}\n"),
    }
}

/// Appends how a part ends: ` Clean`, or its fault.
fn put_end(line: &mut String, fault: Option<Fault>) -> Result<(), AllocError>
    ensures { OnOk result (string_bytes line.new ≡ string_bytes line.old ++ end_text fault) }
{
    match fault {
        None => line.push_str(" Clean "),
        Some(fault) => write!(line, " {fault} "),
    }
}

/// Appends the line of a part that was cut.
#[tactic(auto, unfolding(crate::specs::Lines::part_text))]
fn put_part(line: &mut String, part: &PartCut<'_>) -> Result<(), AllocError>
    ensures { OnOk result (string_bytes line.new ≡ string_bytes line.old ++ part_text part.now) }
{
    let Tally { read, written } = part.tally;
    put_range(line, part.first, part.end)?;
    write!(line, " of {} packets {read}", part.size)?;
    write!(line, " kept {written} bytes {}", part.sent)?;
    put_end(line, part.fault)?;
    line.push_str(part.file)
}

/// Prints the line of a range: `FIRST-END`, or `{"first":FIRST,"end":END}`. If the writer fails it took a prefix of the line.
pub fn print_range<O: Write>(
    alloc: Global,
    form: LineForm,
    first: u64,
    end: u64,
    out: &mut O,
) -> io::Result<()>
    ensures { Takes (O.contents out.old) (O.contents out.new) result (range_line form first end) }
{
    let mut line = String::new(alloc);
    put_range_line(form, &mut line, first, end)?;
    send(line.as_bytes(), out)
}

/// Prints the stretches that have to be cut again, a line each, as `bpftap parts` prints ranges.
pub fn print_stretches<O: Write>(alloc: Global, again: &[Stretch], out: &mut O) -> io::Result<()>
    ensures { OnOk result (Appends (O.contents out.old) (O.contents out.new) (stretch_lines Text again.now)) }
{
    for stretch in again {
        if let Err(error) = print_range(alloc, LineForm::Text, stretch.first, stretch.end, out) {
            return Err(error);
        }
    }
    Ok(())
}

/// Prints the line of a part that was cut: its range, the size of the whole capture, how many packets the part has and how many of these were
/// written, how many bytes were written, how the part ends, and the file.
///
/// `24-58511 of 117023 packets 126 kept 60 bytes 5424 Clean out/1.pcap`, on one line; the fault's name and place in place of `Clean`. If the writer fails it took a prefix of the line.
pub fn print_part<O: Write>(alloc: Global, part: &PartCut<'_>, out: &mut O) -> io::Result<()>
    ensures { Takes (O.contents out.old) (O.contents out.new) result (part_text part.now ++ codes "\n") }
{
    let mut line = String::new(alloc);
    put_part(&mut line, part)?;
    line.push_str("\n")?;
    send(line.as_bytes(), out)
}

/// The part that a line, without its end, is printed of by [`print_part`]; `None` if there is none.
pub fn read_part(alloc: Global, line: &[u8]) -> Result<Option<PartCut<'_>>, AllocError>
    ensures some { IfOk result (λ found. IfSome found (IsPartLine line.now)) }
    ensures none { IfOk result (λ found. IfNone found ((part : PartCut) → IsPartLine line.now part → ⊥)) }
{
    let Some(part) = part_in(line) else {
        return Ok(None);
    };
    let mut printed = String::new(alloc);
    put_part(&mut printed, &part)?;
    if printed.as_bytes() == line {
        Ok(Some(part))
    } else {
        Ok(None)
    }
}
