//! What is printed of a packet, and of a filter's answer to it, in an object of JSON.

ghost use Rattle.std.specs.Prelude.{◌≡◌, ◌++◌, length, IfOk, OnOk, string_bytes};
ghost use Rattle.filterlang.specs.Trees.{tree_of};
ghost use Rattle.filter_explain.specs.Asking.{question_of};
ghost use Rattle.bpfvm.specs.Images.{brief_text};
ghost use Rattle.cli_answers.specs.Answers.{EndsRunAs};
ghost use Rattle.cli_answers.specs.Objects.{at_json, cause_json, end_json, instruction_json, lengths_json, packet_json, place_json, question_json, returned_json, run_json, time_json, verdict_json, DecidesInJson, IsJsonAnswer, PutsInJson};

use crate::filter::AskedFilter;
use crate::run_end::{end_of_run, ended_as};
use bpfvm::{Brief, Insn, NoMemory, Program};
use filter_explain::{AskedPart, decide, put_part};
use filter_meaning::{AbortCause, Verdict};
use filterlang::Expr;
use line_text::put_string;
use savefile::PacketRef;
use std::alloc::AllocError;

/// Puts where a packet is in place of what the line has.
fn put_place(line: &mut String, capture: usize, place: u64) -> Result<(), AllocError>
    ensures { OnOk result (string_bytes line.new ≡ place_json capture place) }
{
    line.clear();
    write!(line, "{{\"capture\":{capture},\"place\":{place},")
}

/// Appends when a packet was captured.
fn put_time(line: &mut String, seconds: u32, nanoseconds: u32) -> Result<(), AllocError>
    ensures { OnOk result (string_bytes line.new ≡ string_bytes line.old ++ time_json seconds nanoseconds) }
{
    write!(line, "\"seconds\":{seconds},\"nanoseconds\":{nanoseconds},")
}

/// Appends how long a packet was on the wire, and how many bytes of it were captured.
fn put_lengths(line: &mut String, wire: u32, bytes: &[u8]) -> Result<(), AllocError>
    ensures { OnOk result (string_bytes line.new ≡ string_bytes line.old ++ lengths_json wire (length bytes.now)) }
{
    let captured = bytes.len();
    write!(line, "\"length\":{wire},\"captured\":{captured},")
}

/// Puts where a packet is, its time and its lengths in place of what the line has: the head of an
/// object.
pub fn put_packet(
    line: &mut String,
    capture: usize,
    place: u64,
    packet: &PacketRef<'_>,
) -> Result<(), NoMemory>
    ensures { OnOk result (string_bytes line.new ≡ packet_json capture place packet.now) }
{
    put_place(line, capture, place)?;
    put_time(line, packet.sec, packet.nanos)?;
    put_lengths(line, packet.len, packet.bytes)?;
    Ok(())
}

/// Appends what a filter answers.
fn put_verdict(line: &mut String, verdict: Verdict) -> Result<(), AllocError>
    ensures { OnOk result (string_bytes line.new ≡ string_bytes line.old ++ verdict_json verdict) }
{
    line.push_str(match verdict {
        Verdict::Yes => "\"answer\":\"yes\",",
        Verdict::No => "\"answer\":\"no\",",
        Verdict::Abort => "\"answer\":\"abort\",",
    })
}

/// Appends why a primitive or a relation aborted, if it did.
fn put_cause(line: &mut String, cause: Option<AbortCause>) -> Result<(), AllocError>
    ensures { OnOk result (string_bytes line.new ≡ string_bytes line.old ++ cause_json cause) }
{
    match cause {
        None => Ok(()),
        Some(AbortCause::NotCaptured(place)) => write!(line, ",\"cause\":{{\"byte\":{place}}}"),
        Some(AbortCause::ZeroDivisor) => line.push_str(",\"cause\":{\"divisor\":0}"),
    }
}

/// Appends the primitive or relation that decides, and why it aborted. `text` may have any text, as
/// below.
fn put_asked(line: &mut String, text: &mut String, asked: &AskedPart<'_>) -> Result<(), AllocError>
    ensures { OnOk result (string_bytes line.new ≡ string_bytes line.old ++ question_json (question_of asked.now)) }
{
    text.clear();
    put_part(text, asked.part, asked.negated)?;
    line.push_str("\"decided\":")?;
    put_string(line, text.as_str())?;
    put_cause(line, asked.cause)
}

/// Appends what an expression answers to a packet, and what decides.
fn put_meaning(
    line: &mut String,
    text: &mut String,
    expr: &Expr,
    packet: &PacketRef<'_>,
) -> Result<Verdict, NoMemory>
    ensures { IfOk result (PutsInJson (string_bytes line.old) (string_bytes line.new) (DecidesInJson (tree_of expr.now)) packet.now) }
{
    let asked = decide(expr, packet.bytes, packet.len);
    let verdict = asked.answer();
    put_verdict(line, verdict)?;
    put_asked(line, text, &asked)?;
    Ok(verdict)
}

/// Appends the number that a program answers.
fn put_returned(line: &mut String, number: u32) -> Result<(), AllocError>
    ensures { OnOk result (string_bytes line.new ≡ string_bytes line.old ++ returned_json number) }
{
    write!(line, "\"returned\":{number},")
}

/// Appends the place where a run ended.
fn put_at(line: &mut String, place: usize) -> Result<(), AllocError>
    ensures { OnOk result (string_bytes line.new ≡ string_bytes line.old ++ at_json place) }
{
    write!(line, "\"at\":{place},")
}

/// Appends the number that a program answers, and the place where its run ended.
fn put_number(line: &mut String, number: u32, place: usize) -> Result<(), AllocError>
    ensures { OnOk result (string_bytes line.new ≡ string_bytes line.old ++ run_json number place) }
{
    put_returned(line, number)?;
    put_at(line, place)?;
    Ok(())
}

/// Puts the name and operand of an instruction in place of what a text has.
fn put_name(text: &mut String, insn: &Insn) -> Result<(), AllocError>
    ensures { OnOk result (string_bytes text.new ≡ brief_text insn.now) }
{
    text.clear();
    write!(text, "{}", Brief(insn))
}

/// Appends an instruction.
fn put_instruction(line: &mut String, text: &mut String, insn: &Insn) -> Result<(), AllocError>
    ensures { OnOk result (string_bytes line.new ≡ string_bytes line.old ++ instruction_json insn.now) }
{
    put_name(text, insn)?;
    line.push_str("\"instruction\":")?;
    put_string(line, text.as_str())?;
    Ok(())
}

/// Appends what a program answers to a packet, where its run ended, and the instruction there.
fn put_end(
    line: &mut String,
    text: &mut String,
    program: &Program,
    packet: &PacketRef<'_>,
) -> Result<Verdict, NoMemory>
    ensures { IfOk result (PutsInJson (string_bytes line.old) (string_bytes line.new) (EndsRunAs end_json program.now) packet.now) }
{
    let end = end_of_run(program, packet);
    let verdict = ended_as(&end.insn, end.number);
    put_verdict(line, verdict)?;
    put_number(line, end.number, end.place)?;
    put_instruction(line, text, &end.insn)?;
    Ok(verdict)
}

/// Appends what a filter answers to a packet, and why: the last members of an object. `text` may
/// have any text.
pub fn put_answer(
    line: &mut String,
    text: &mut String,
    filter: &AskedFilter,
    packet: &PacketRef<'_>,
) -> Result<Verdict, NoMemory>
    ensures { IfOk result (PutsInJson (string_bytes line.old) (string_bytes line.new) (IsJsonAnswer filter.now) packet.now) }
{
    match filter {
        AskedFilter::Expression(expr) => put_meaning(line, text, expr, packet),
        AskedFilter::Program(program) => put_end(line, text, program, packet),
    }
}
