//! The line of a packet that two filters treat differently.

ghost use Rattle.std.specs.Prelude.{◌≡◌, ◌+◌, OnOk, string_bytes};
ghost use Rattle.cli_answers.specs.declared.form.PacketForm.TheVariants.{Text, Json};
ghost use Rattle.cli_compare.specs.Compared.{IsOf, PutsBoth};
ghost use Rattle.cli_compare.specs.Pairs.{Difference};
ghost use Rattle.cli_compare.specs.Printed.{counts_in, counts_json, counts_text, difference_json, difference_line, difference_text};

use crate::each::DifferenceCounts;
use crate::pair::FilterPair;
use bpfvm::NoMemory;
use cli_answers::form::PacketLine;
use cli_answers::line::{put_answer, put_packet};
use cli_answers::{PacketForm, json};
use savefile::PacketRef;

/// Two filters that are asked, and the form in which their answers are printed.
#[derive(Clone, Copy)]
pub(crate) struct Comparing<'a> {
    pub(crate) pair: &'a FilterPair,
    pub(crate) form: PacketForm,
}

/// Puts the text of a packet in place of what the line has: its place and time, and what each filter answers, and why.
fn put_text(
    line: &mut String,
    pair: &FilterPair,
    place: u64,
    packet: &PacketRef<'_>,
) -> Result<(), NoMemory>
    ensures { OnOk result ((d : Difference) × IsOf Text pair.now place packet.now d × (string_bytes line.new ≡ difference_text d)) }
{
    put_packet(line, place, packet)?;
    line.push_str("first ")?;
    put_answer(line, &pair.first, packet)?;
    line.push_str(" second ")?;
    put_answer(line, &pair.second, packet)?;
    line.push_str("\n")?;
    Ok(())
}

/// Appends what each filter answers to a packet, and why, and the end of an object. `text` may have any text.
pub(crate) fn put_both(
    line: &mut String,
    text: &mut String,
    pair: &FilterPair,
    packet: &PacketRef<'_>,
) -> Result<(), NoMemory>
    ensures { OnOk result (PutsBoth pair.now packet.now (string_bytes line.old) (string_bytes line.new)) }
{
    line.push_str("\"first\":{")?;
    json::put_answer(line, text, &pair.first, packet)?;
    line.push_str("},\"second\":{")?;
    json::put_answer(line, text, &pair.second, packet)?;
    line.push_str("}}\n")?;
    Ok(())
}

/// Puts the object of a packet in place of what the line has: where it is, its time and lengths, and what each filter answers, and why.
fn put_object(
    buffer: &mut PacketLine,
    pair: &FilterPair,
    capture: usize,
    place: u64,
    packet: &PacketRef<'_>,
) -> Result<(), NoMemory>
    ensures { OnOk result ((d : Difference) × IsOf (Json capture) pair.now place packet.now d × (string_bytes buffer.new.line ≡ difference_json capture d)) }
{
    json::put_packet(&mut buffer.line, capture, place, packet)?;
    put_both(&mut buffer.line, &mut buffer.text, pair, packet)?;
    Ok(())
}

/// Puts the line of a packet in place of what the line has: its place and time, and what each filter answers, and why.
pub(crate) fn put_difference(
    buffer: &mut PacketLine,
    comparing: &Comparing<'_>,
    place: u64,
    packet: &PacketRef<'_>,
) -> Result<(), NoMemory>
    ensures { OnOk result ((d : Difference) × IsOf comparing.now.form comparing.now.pair.now place packet.now d
        × (string_bytes buffer.new.line ≡ difference_line comparing.now.form d)) }
{
    match comparing.form {
        PacketForm::Text => put_text(&mut buffer.line, comparing.pair, place, packet),
        PacketForm::Json(capture) => put_object(buffer, comparing.pair, capture, place, packet),
    }
}

/// Puts the text of the counts in place of what the line has.
fn put_counts_text(
    line: &mut String,
    packets: u64,
    differ: u128,
    first: u64,
    second: u64,
) -> Result<(), NoMemory>
    ensures { OnOk result (string_bytes line.new ≡ counts_text packets differ first second) }
{
    line.clear();
    write!(line, "{packets} packets: ")?;
    write!(line, "{differ} differ, ")?;
    write!(line, "{first} accepted by the first alone, ")?;
    write!(line, "{second} by the second")?;
    line.push_str("\n")?;
    Ok(())
}

/// Puts the object of the counts in place of what the line has.
#[tactic(auto, unfolding(crate::specs::Printed::counts_json))]
fn put_counts_object(
    line: &mut String,
    packets: u64,
    differ: u128,
    first: u64,
    second: u64,
) -> Result<(), NoMemory>
    ensures { OnOk result (string_bytes line.new ≡ counts_json packets differ first second) }
{
    line.clear();
    write!(line, "{{\"packets\":{packets},\"differ\":{differ}")?;
    write!(line, ",\"first\":{first},\"second\":{second}}}\n")?;
    Ok(())
}

/// Puts the line of the counts in place of what the line has.
pub(crate) fn put_counts(
    line: &mut String,
    form: PacketForm,
    counts: DifferenceCounts,
) -> Result<(), NoMemory>
    ensures { OnOk result (string_bytes line.new ≡ counts_in form counts.packets (counts.first + counts.second) counts.first counts.second) }
{
    let DifferenceCounts {
        packets,
        first,
        second,
        ..
    } = counts;
    match form {
        PacketForm::Text => put_counts_text(line, packets, counts.differ(), first, second),
        PacketForm::Json(_) => put_counts_object(line, packets, counts.differ(), first, second),
    }
}
