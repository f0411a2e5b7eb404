//! One packet in full, as an object of JSON.

ghost use Rattle.std.specs.Prelude.{◌≡◌, ◌++◌, IfOk, OnOk, codes, string_bytes};
ghost use Rattle.cli_answers.specs.Dumps.{hex_text};
ghost use Rattle.cli_answers.specs.declared.form.PacketForm.TheVariants.{Json};
ghost use Rattle.cli_explain.specs.Explained.{IsOfWhole};

use crate::printer::FullPrinter;
use crate::whole::{join_verdicts, number_at, put_given};
use bpfvm::{Brief, Executed, NoMemory, Program, Traced, trace};
use cli_answers::dump::put_hex;
use cli_answers::{AskedFilter, json};
use filter_explain::{AskedPart, decide, explain, put_part};
use filter_meaning::{Look, Verdict, looks_of};
use filtergen::Refusal;
use filterlang::Expr;
use frame_fields::{FieldPart, Layers, layers_of, part_of_frame};
use line_text::put_string;
use savefile::PacketRef;
use std::alloc::{AllocError, Global};

/// What is put before an element of a list.
fn separator(at: usize) -> &'static str {
    if at == 0 { "" } else { "," }
}

/// A verdict, as objects have it.
fn verdict_word(verdict: Verdict) -> &'static str {
    match verdict {
        Verdict::Yes => "yes",
        Verdict::No => "no",
        Verdict::Abort => "abort",
    }
}

/// Appends the number of bytes; or `null` if one of them was not captured.
fn put_value(text: &mut String, number: Option<u64>) -> Result<(), AllocError> {
    match number {
        Some(number) => write!(text, "{number}"),
        None => text.push_str("null"),
    }
}

/// Appends the name of the field that bytes belong to; or `null` if they belong to none.
fn put_field(text: &mut String, part: Option<FieldPart>) -> Result<(), AllocError> {
    match part {
        Some(part) => write!(text, "\"{part}\""),
        None => text.push_str("null"),
    }
}

/// Appends bytes that a test looked at: where they are, their number, and their field.
fn put_bytes(
    text: &mut String,
    layers: Layers,
    offset: usize,
    size: usize,
    packet: &PacketRef<'_>,
) -> Result<(), AllocError> {
    write!(text, "{{\"offset\":{offset},\"size\":{size},\"value\":")?;
    put_value(text, number_at(packet.bytes, offset, size))?;
    text.push_str(",\"field\":")?;
    put_field(text, part_of_frame(layers, offset, size))?;
    text.push_str("}")
}

/// Appends the length on the wire, if a test looked at it.
fn put_length(text: &mut String, looks: &[Look], wire: u32) -> Result<(), AllocError> {
    if looks.contains(&Look::Length) {
        write!(text, ",\"length\":{wire}")
    } else {
        Ok(())
    }
}

/// Appends the bytes that a test looked at, each once.
fn put_looks(text: &mut String, looks: &[Look], packet: &PacketRef<'_>) -> Result<(), AllocError> {
    let layers = layers_of(packet.bytes);
    let mut count: usize = 0;
    for (at, look) in looks.iter().enumerate() {
        if looks[..at].contains(look) {
            continue;
        }
        if let Look::Bytes { offset, size } = *look {
            text.push_str(separator(count))?;
            put_bytes(text, layers, offset, size, packet)?;
            count = count.saturating_add(1);
        }
    }
    Ok(())
}

/// Appends a primitive or a relation as a string. `name` may have any text.
fn put_name(text: &mut String, name: &mut String, part: &Expr) -> Result<(), AllocError> {
    name.clear();
    put_part(name, part, false)?;
    put_string(text, name.as_str())
}

/// Appends the object of a primitive or a relation that was asked: its own answer, and what it looked at.
fn put_asked(
    alloc: Global,
    text: &mut String,
    name: &mut String,
    asked: &AskedPart<'_>,
    packet: &PacketRef<'_>,
) -> Result<(), NoMemory> {
    text.push_str("{\"test\":")?;
    put_name(text, name, asked.part)?;
    write!(text, ",\"answer\":\"{}\"", verdict_word(asked.verdict))?;
    let looks = looks_of(alloc, asked.part, packet.bytes, packet.len)?;
    put_length(text, looks.as_slice(), packet.len)?;
    text.push_str(",\"bytes\":[")?;
    put_looks(text, looks.as_slice(), packet)?;
    text.push_str("]}")?;
    Ok(())
}

/// Appends the objects of the primitives and relations that were asked, in order.
fn put_all_asked(
    alloc: Global,
    text: &mut String,
    name: &mut String,
    expr: &Expr,
    packet: &PacketRef<'_>,
) -> Result<(), NoMemory> {
    let all = explain(alloc, expr, packet.bytes, packet.len)?;
    for (at, asked) in all.iter().enumerate() {
        text.push_str(separator(at))?;
        put_asked(alloc, text, name, asked, packet)?;
    }
    Ok(())
}

/// Appends a primitive or a relation to those that are not asked, unless it is; and answers what it answers, where it is.
fn put_one_unasked(
    names: &mut String,
    name: &mut String,
    part: &Expr,
    is_asked: bool,
    packet: &PacketRef<'_>,
) -> Result<Verdict, NoMemory> {
    if is_asked {
        return Ok(decide(part, packet.bytes, packet.len).verdict);
    }
    let comma = separator(names.len());
    names.push_str(comma)?;
    put_name(names, name, part)?;
    Ok(Verdict::No)
}

/// Appends the primitives and relations of an expression that are not asked, from left to right, and answers what it answers.
fn put_unasked(
    names: &mut String,
    name: &mut String,
    expr: &Expr,
    is_asked: bool,
    packet: &PacketRef<'_>,
) -> Result<Verdict, NoMemory> {
    let (left, goes_on, right) = match expr {
        Expr::Not(operand) => {
            let verdict = put_unasked(names, name, operand, is_asked, packet)?;
            return Ok(verdict.opposite());
        }
        Expr::And(left, right) => (left, Verdict::Yes, right),
        Expr::Or(left, right) => (left, Verdict::No, right),
        _ => return put_one_unasked(names, name, expr, is_asked, packet),
    };
    let first = put_unasked(names, name, left, is_asked, packet)?;
    let is_next_asked = is_asked && first == goes_on;
    let second = put_unasked(names, name, right, is_next_asked, packet)?;
    Ok(join_verdicts(first, goes_on, second))
}

/// Appends how an expression was read, its primitives and relations that were asked, and those that were not.
fn put_expression(
    alloc: Global,
    text: &mut String,
    name: &mut String,
    expr: &Expr,
    packet: &PacketRef<'_>,
) -> Result<(), NoMemory> {
    put_given(name, expr)?;
    text.push_str("\"expression\":")?;
    put_string(text, name.as_str())?;
    text.push_str(",\"asked\":[")?;
    put_all_asked(alloc, text, name, expr, packet)?;
    let mut names = String::new(alloc);
    put_unasked(&mut names, name, expr, true, packet)?;
    write!(text, "],\"unasked\":[{}]", names.as_str())?;
    Ok(())
}

/// Appends an instruction by its place and its name.
fn put_insn(
    text: &mut String,
    name: &mut String,
    program: &Program,
    place: usize,
) -> Result<(), AllocError> {
    name.clear();
    if let Some(insn) = program.insns().get(place) {
        write!(name, "{}", Brief(insn))?;
    }
    write!(text, "\"at\":{place},\"instruction\":")?;
    put_string(text, name.as_str())
}

/// Appends the object of an instruction that was executed: the registers after it, and what it stored.
fn put_step(
    text: &mut String,
    name: &mut String,
    program: &Program,
    step: &Executed,
) -> Result<(), AllocError> {
    text.push_str("{")?;
    put_insn(text, name, program, step.place)?;
    let (accumulator, index) = (step.accumulator, step.index);
    write!(text, ",\"accumulator\":{accumulator},\"index\":{index}")?;
    match step.stored {
        Some(stored) => write!(
            text,
            ",\"stored\":{{\"cell\":{},\"value\":{}}}}}",
            stored.cell, stored.value
        ),
        None => text.push_str("}"),
    }
}

/// Appends the object of a run: how many instructions it took, what it returned, where it ended, and each instruction.
fn put_traced(
    text: &mut String,
    name: &mut String,
    program: &Program,
    run: &Traced,
) -> Result<(), AllocError> {
    let executed = run.executed.as_slice();
    let count = executed.len();
    write!(
        text,
        "{{\"instructions\":{count},\"returned\":{},",
        run.answer
    )?;
    if let Some(last) = executed.last() {
        put_insn(text, name, program, last.place)?;
    }
    text.push_str(",\"steps\":[")?;
    for (at, step) in executed.iter().enumerate() {
        text.push_str(separator(at))?;
        put_step(text, name, program, step)?;
    }
    text.push_str("]}")
}

/// Appends the run of the program; or `null` if there is none.
fn put_run(
    alloc: Global,
    text: &mut String,
    name: &mut String,
    program: Result<&Program, Refusal>,
    packet: &PacketRef<'_>,
) -> Result<(), NoMemory> {
    text.push_str(",\"run\":")?;
    match program {
        Ok(program) => {
            let run = trace(alloc, program, packet.bytes, packet.len)?;
            Ok(put_traced(text, name, program, &run)?)
        }
        Err(_) => Ok(text.push_str("null")?),
    }
}

/// What follows the bytes of a packet in its object.
fn more_members(printer: &FullPrinter<'_, '_>, packet: &PacketRef<'_>) -> Result<String, NoMemory> {
    let alloc = printer.alloc;
    let mut text = String::new(alloc);
    let mut name = String::new(alloc);
    match printer.filter {
        AskedFilter::Expression(expr) => {
            put_expression(alloc, &mut text, &mut name, expr, packet)?;
        }
        AskedFilter::Program(_) => {
            text.push_str("\"expression\":null,\"asked\":[],\"unasked\":[]")?;
        }
    }
    put_run(alloc, &mut text, &mut name, printer.program, packet)?;
    Ok(text)
}

/// Appends the captured bytes of a packet.
fn put_captured(line: &mut String, bytes: &[u8]) -> Result<(), AllocError>
    ensures { OnOk result (string_bytes line.new ≡ string_bytes line.old ++ codes ",\"bytes\":\"" ++ hex_text bytes.now ++ codes "\",") }
{
    line.push_str(",\"bytes\":\"")?;
    put_hex(line, bytes)?;
    line.push_str("\",")
}

/// The object of a packet of the capture of this number, with everything about it, and the end of its line.
pub(crate) fn whole_object(
    printer: &FullPrinter<'_, '_>,
    capture: usize,
    place: u64,
    packet: &PacketRef<'_>,
) -> Result<String, NoMemory>
    ensures { IfOk result (λ line. IsOfWhole (Json capture) printer.now.filter.now place packet.now (λ text. string_bytes line ≡ text)) }
{
    let more = more_members(printer, packet)?;
    let mut line = String::new(printer.alloc);
    let mut text = String::new(printer.alloc);
    json::put_packet(&mut line, capture, place, packet)?;
    json::put_answer(&mut line, &mut text, printer.filter, packet)?;
    put_captured(&mut line, packet.bytes)?;
    line.push_str(more.as_str())?;
    line.push_str("}\n")?;
    Ok(line)
}
