//! The lines of captures whose packets are counted.

ghost use Rattle.std.specs.Prelude.{◌≡◌, ◌++◌, IfOk, OnOk, Some, false, string_bytes};
ghost use Rattle.line_text.specs.Sending.{Takes};
ghost use Rattle.visible_text.specs.Hidden.{printed_name};
ghost use Rattle.cli_count.specs.Lines.{count_json, count_line, count_text, counts_json, member_json, packets_json, path_json, path_line, sum_json, taken_json, verdicts_json};

use crate::count::CountEnd;
use cli_answers::counts::VerdictCounts;
use cli_answers::printing::Unprinted;
use cli_watch::output::{PrintSink, send_last};
use line_text::sending::send;
use line_text::{LineForm, NamingForm, put_string};
use std::alloc::{AllocError, Global};
use std::io::Write;
use visible_text::PrintedName;

/// Appends the counts of the capture of this name, in words.
#[tactic(auto, unfolding(crate::specs::Lines::count_text))]
fn put_count_text(
    line: &mut String,
    name: PrintedName<'_>,
    counts: VerdictCounts,
) -> Result<(), AllocError>
    ensures { OnOk result (string_bytes line.new ≡ string_bytes line.old ++ count_text (printed_name name.entry.is_terminal name.entry.name.now) counts) }
{
    write!(
        line,
        "{name} {} packets: {} Yes, ",
        counts.packets, counts.yes
    )?;
    write!(line, "{} No, {} Abort\n", counts.no, counts.abort)
}

/// Appends a number as a member of an object.
fn put_member(line: &mut String, name: &str, number: u64) -> Result<(), AllocError>
    ensures { OnOk result (string_bytes line.new ≡ string_bytes line.old ++ member_json name.now number) }
{
    line.push_str(",\"")?;
    line.push_str(name)?;
    write!(line, "\":{number}")
}

/// Appends how many packets were answered so, as members of an object.
#[tactic(auto, unfolding(crate::specs::Lines::verdicts_json))]
fn put_verdicts(line: &mut String, counts: VerdictCounts) -> Result<(), AllocError>
    ensures { OnOk result (string_bytes line.new ≡ string_bytes line.old ++ verdicts_json counts) }
{
    put_member(line, "yes", counts.yes)?;
    put_member(line, "no", counts.no)?;
    put_member(line, "abort", counts.abort)
}

/// Appends the counts as members of an object.
fn put_counts(line: &mut String, counts: VerdictCounts) -> Result<(), AllocError>
    ensures { OnOk result (string_bytes line.new ≡ string_bytes line.old ++ counts_json counts) }
{
    put_member(line, "packets", counts.packets)?;
    put_verdicts(line, counts)
}

/// Appends how many instructions a program took, as a member of an object; `null` if there is no
/// program.
fn put_taken(line: &mut String, taken: Option<u64>) -> Result<(), AllocError>
    ensures { OnOk result (string_bytes line.new ≡ string_bytes line.old ++ taken_json taken) }
{
    match taken {
        Some(taken) => put_member(line, "instructions", taken),
        None => line.push_str(",\"instructions\":null"),
    }
}

/// Appends the counts of the capture at a path, as an object.
fn put_count_object(
    line: &mut String,
    path: &str,
    counts: VerdictCounts,
    taken: Option<u64>,
) -> Result<(), AllocError>
    ensures { OnOk result (string_bytes line.new ≡ string_bytes line.old ++ count_json path.now counts taken) }
{
    line.push_str("{\"file\":")?;
    put_string(line, path)?;
    put_counts(line, counts)?;
    put_taken(line, taken)?;
    line.push_str("}\n")
}

/// The line of the counts of the capture at a path.
fn count_line(
    alloc: Global,
    path: &str,
    counts: VerdictCounts,
    taken: Option<u64>,
    form: NamingForm,
) -> Result<String, AllocError>
    ensures { IfOk result (λ line. string_bytes line ≡ count_line form path.now counts taken) }
{
    let mut line = String::new(alloc);
    match form.form {
        LineForm::Text => put_count_text(&mut line, form.named(path), counts)?,
        LineForm::Json => put_count_object(&mut line, path, counts, taken)?,
    }
    Ok(line)
}

/// Appends a path as an object.
#[tactic(auto, unfolding(crate::specs::Lines::path_json))]
fn put_path_object(line: &mut String, path: &str) -> Result<(), AllocError>
    ensures { OnOk result (string_bytes line.new ≡ string_bytes line.old ++ path_json path.now) }
{
    line.push_str("{\"file\":")?;
    put_string(line, path)?;
    line.push_str("}\n")
}

/// The line of a path.
fn path_line(alloc: Global, path: &str, form: NamingForm) -> Result<String, AllocError>
    ensures { IfOk result (λ line. string_bytes line ≡ path_line form path.now) }
{
    let mut line = String::new(alloc);
    match form.form {
        LineForm::Text => {
            write!(line, "{}\n", form.named(path))?;
        }
        LineForm::Json => put_path_object(&mut line, path)?,
    }
    Ok(line)
}

/// Prints the counts of the capture at a path: `a.pcap 253 packets: 67 Yes, 186 No, 0 Abort`, or in
/// JSON `{"file":"a.pcap","packets":253,"yes":67,"no":186,"abort":0,"instructions":1692}`, on one
/// line.
pub(crate) fn print_count<R, O: Write>(
    alloc: Global,
    path: &str,
    end: &CountEnd<R>,
    form: NamingForm,
    out: &mut O,
) -> Result<(), Unprinted>
    ensures { Takes (O.contents out.old) (O.contents out.new) result (count_line form path.now end.now.counts end.now.taken) }
{
    match count_line(alloc, path, end.counts, end.taken, form) {
        Ok(line) => Ok(send(line.as_bytes(), out)?),
        Err(AllocError) => Err(Unprinted::NoMemory),
    }
}

/// Appends how many packets there were, as the first member of an object.
#[tactic(auto, unfolding(crate::specs::Lines::packets_json))]
fn put_packets(line: &mut String, packets: u64) -> Result<(), AllocError>
    ensures { OnOk result (string_bytes line.new ≡ string_bytes line.old ++ packets_json packets) }
{
    write!(line, "{{\"packets\":{packets}")
}

/// Appends the counts of several captures, as an object.
fn put_sum_object(
    line: &mut String,
    counts: VerdictCounts,
    taken: Option<u64>,
) -> Result<(), AllocError>
    ensures { OnOk result (string_bytes line.new ≡ string_bytes line.old ++ sum_json counts taken) }
{
    put_packets(line, counts.packets)?;
    put_verdicts(line, counts)?;
    put_taken(line, taken)?;
    line.push_str("}\n")
}

/// Prints the counts of several captures as an object:
/// `{"packets":253,"yes":67,"no":186,"abort":0,"instructions":1692}`, on one line, and flushes the
/// writer.
pub(crate) fn print_sum_object<O: PrintSink>(
    alloc: Global,
    counts: VerdictCounts,
    taken: Option<u64>,
    out: &mut O,
) -> Result<(), Unprinted>
    ensures taken { Takes (O.contents out.old) (O.contents out.new) result (sum_json counts taken) }
    ensures handed_on { OnOk result (O.waits out.new ≡ false) }
{
    let mut line = String::new(alloc);
    match put_sum_object(&mut line, counts, taken) {
        Ok(()) => Ok(send_last(line.as_bytes(), out)?),
        Err(AllocError) => Err(Unprinted::NoMemory),
    }
}

/// Prints a path: `a.pcap`, or in JSON `{"file":"a.pcap"}`, on one line.
pub(crate) fn print_path<O: Write>(
    alloc: Global,
    path: &str,
    form: NamingForm,
    out: &mut O,
) -> Result<(), Unprinted>
    ensures { Takes (O.contents out.old) (O.contents out.new) result (path_line form path.now) }
{
    match path_line(alloc, path, form) {
        Ok(line) => Ok(send(line.as_bytes(), out)?),
        Err(AllocError) => Err(Unprinted::NoMemory),
    }
}
