//! One packet in full.

use crate::printer::FullPrinter;
use bpfvm::{Executed, Insn, NoMemory, PlacedInsn, Program, Traced, code, trace};
use cli_answers::AskedFilter;
use cli_answers::dump::{put_blanks, put_dump};
use filter_explain::{AskedPart, decide, put_cause, put_part, verdict_text};
use filter_meaning::{Look, Verdict, looks_of};
use filter_print::Canonical;
use filtergen::Refusal;
use filterlang::Expr;
use frame_fields::{FieldPart, Notation, Written, layers_of, part_of_frame};
use savefile::PacketRef;
use std::alloc::{AllocError, Global};

/// How wide an instruction is written.
const NAME: usize = 48;

/// The bytes at an offset as a number in network order; `None` if one of them was not captured.
pub(crate) fn number_at(packet: &[u8], offset: usize, size: usize) -> Option<u64> {
    let end = offset.checked_add(size)?;
    let mut number = 0u64;
    for byte in packet.get(offset..end)? {
        number = number << 8 | u64::from(*byte);
    }
    Some(number)
}

/// Appends the field that bytes belong to, and its number in words if it has some.
fn put_field(
    text: &mut String,
    part: Option<FieldPart>,
    number: Option<u64>,
) -> Result<(), AllocError> {
    let Some(part) = part else {
        return Ok(());
    };
    match (part.notation(), number) {
        (Notation::Hex, _) | (_, None) => write!(text, " ({part})"),
        (notation, Some(number)) => write!(text, " ({part}: {})", Written { number, notation }),
    }
}

/// Appends bytes that a test looked at.
fn put_bytes(
    text: &mut String,
    offset: usize,
    size: usize,
    number: Option<u64>,
) -> Result<(), AllocError> {
    if size == 1 {
        write!(text, "           ether[{offset}] ")?;
    } else {
        write!(text, "           ether[{offset}:{size}] ")?;
    }
    match number {
        Some(number) => write!(text, "= {number:#x}"),
        None => text.push_str("is not captured"),
    }
}

/// Appends what a test looked at, each once: bytes with the field that they belong to.
fn put_looks(text: &mut String, looks: &[Look], packet: &PacketRef<'_>) -> Result<(), AllocError> {
    let layers = layers_of(packet.bytes);
    for (at, look) in looks.iter().enumerate() {
        if looks[..at].contains(look) {
            continue;
        }
        match *look {
            Look::Length => write!(text, "           len = {}\n", packet.len)?,
            Look::Bytes { offset, size } => {
                let number = number_at(packet.bytes, offset, size);
                put_bytes(text, offset, size, number)?;
                put_field(text, part_of_frame(layers, offset, size), number)?;
                text.push('\n')?
            }
        }
    }
    Ok(())
}

/// Appends a primitive or a relation that was asked, and its own answer.
fn put_answer(text: &mut String, asked: AskedPart<'_>) -> Result<(), AllocError> {
    write!(text, "{:<11}", verdict_text(asked.verdict))?;
    put_part(text, asked.part, false)?;
    put_cause(text, asked.cause)?;
    text.push('\n')
}

/// Appends a primitive or a relation that is not asked.
fn put_unasked(text: &mut String, part: &Expr) -> Result<(), AllocError> {
    text.push_str("not asked  ")?;
    put_part(text, part, false)?;
    text.push('\n')
}

/// What two parts answer, of which the second is asked after this answer of the first.
pub(crate) fn join_verdicts(first: Verdict, goes_on: Verdict, second: Verdict) -> Verdict {
    if first == goes_on { second } else { first }
}

/// Puts an expression as a command line takes it in place of what a text has: in parentheses, if it
/// begins with `-`.
pub(crate) fn put_given(text: &mut String, expr: &Expr) -> Result<(), AllocError> {
    text.clear();
    write!(text, "{}", Canonical(expr))?;
    if text.as_str().starts_with("-") {
        text.clear();
        write!(text, "({})", Canonical(expr))?;
    }
    Ok(())
}

/// What follows a packet's line, and what the parts of its expression looked at.
#[derive(Drop)]
struct WholeText {
    alloc: Global,
    text: String,
    noted: Vec<Look>,
}

impl WholeText {
    /// Appends a primitive or a relation that is asked, its own answer, and what it looks at, which
    /// is noted too.
    fn put_asked(&mut self, part: &Expr, packet: &PacketRef<'_>) -> Result<Verdict, NoMemory> {
        let asked = decide(part, packet.bytes, packet.len);
        put_answer(&mut self.text, asked)?;
        let looks = looks_of(self.alloc, part, packet.bytes, packet.len)?;
        put_looks(&mut self.text, looks.as_slice(), packet)?;
        self.noted.extend_from_slice(looks.as_slice())?;
        Ok(asked.verdict)
    }

    /// Appends a primitive or a relation, and answers what it answers, where it is asked.
    fn put_one_part(
        &mut self,
        part: &Expr,
        is_asked: bool,
        packet: &PacketRef<'_>,
    ) -> Result<Verdict, NoMemory> {
        if is_asked {
            return self.put_asked(part, packet);
        }
        put_unasked(&mut self.text, part)?;
        Ok(Verdict::No)
    }

    /// Appends the primitives and relations of an expression from left to right, and answers what
    /// it answers. Those that are not asked are named so.
    fn put_parts(
        &mut self,
        expr: &Expr,
        is_asked: bool,
        packet: &PacketRef<'_>,
    ) -> Result<Verdict, NoMemory> {
        let (left, goes_on, right) = match expr {
            Expr::Not(operand) => {
                return Ok(self.put_parts(operand, is_asked, packet)?.opposite());
            }
            Expr::And(left, right) => (left, Verdict::Yes, right),
            Expr::Or(left, right) => (left, Verdict::No, right),
            _ => return self.put_one_part(expr, is_asked, packet),
        };
        let first = self.put_parts(left, is_asked, packet)?;
        let is_next_asked = is_asked && first == goes_on;
        let second = self.put_parts(right, is_next_asked, packet)?;
        Ok(join_verdicts(first, goes_on, second))
    }

    /// Appends how an expression was read, and its primitives and relations; what they looked at is
    /// noted.
    fn put_expression(&mut self, expr: &Expr, packet: &PacketRef<'_>) -> Result<(), NoMemory> {
        let mut given = String::new(self.alloc);
        put_given(&mut given, expr)?;
        write!(self.text, "\nexpression: {}\n\n", given.as_str())?;
        self.put_parts(expr, true, packet)?;
        Ok(())
    }

    /// Appends what follows a packet's line.
    fn put_whole(
        &mut self,
        printer: &FullPrinter<'_, '_>,
        place: u64,
        packet: &PacketRef<'_>,
    ) -> Result<(), NoMemory> {
        let shown = u128::from(place) + 1;
        write!(
            self.text,
            "places count from 0; tcpdump and Wireshark count packets from 1, and this is packet {shown} there\n"
        )?;
        match printer.filter {
            AskedFilter::Expression(expr) => {
                self.put_expression(expr, packet)?;
                self.text.push_str("\nbytes, with those marked that the expression looked at:\n")?;
            }
            AskedFilter::Program(_) => self.text.push_str("\nbytes:\n")?,
        }
        put_dump(&mut self.text, self.noted.as_slice(), packet.bytes)?;
        put_program(self.alloc, &mut self.text, printer.program, packet)
    }
}

/// Appends an instruction by its name, with blanks for tabs.
fn put_name(alloc: Global, text: &mut String, place: u32, insn: &Insn) -> Result<(), NoMemory> {
    let line = format!(in alloc; "{}", PlacedInsn { place, insn })?;
    for character in line.as_str().chars() {
        text.push(if character == '\t' { ' ' } else { character })?;
    }
    Ok(())
}

/// Appends the instruction at a place of a program by its name, in a column.
fn put_insn(
    alloc: Global,
    text: &mut String,
    program: &Program,
    place: usize,
) -> Result<(), NoMemory> {
    let start = text.len();
    if let (Some(insn), Ok(place)) = (program.insns().get(place), u32::try_from(place)) {
        put_name(alloc, text, place, insn)?;
    }
    let width = text.len().saturating_sub(start);
    put_blanks(text, NAME.saturating_sub(width))
}

/// Appends what the registers hold after an instruction, and what it stored.
fn put_registers(text: &mut String, executed: &Executed) -> Result<(), AllocError> {
    let (accumulator, index) = (executed.accumulator, executed.index);
    write!(text, " A {accumulator:#x} X {index:#x}")?;
    match executed.stored {
        Some(stored) => write!(text, " M[{}] {:#x}\n", stored.cell, stored.value),
        None => text.push('\n'),
    }
}

/// Appends the instructions that were executed, and the registers after each.
fn put_executed(
    alloc: Global,
    text: &mut String,
    program: &Program,
    executed: &[Executed],
) -> Result<(), NoMemory> {
    for step in executed {
        put_insn(alloc, text, program, step.place)?;
        put_registers(text, step)?;
    }
    Ok(())
}

/// Appends why a run ended whose last instruction is no return: that was not carried out.
fn put_broken_off(
    text: &mut String,
    program: &Program,
    executed: &[Executed],
) -> Result<(), AllocError> {
    let Some(last) = executed.last() else {
        return Ok(());
    };
    match program.insns().get(last.place) {
        Some(insn) => put_cause_of_end(text, insn.code),
        None => Ok(()),
    }
}

/// Appends why an instruction of this code was not carried out, unless it is a return.
fn put_cause_of_end(text: &mut String, code: u16) -> Result<(), AllocError> {
    text.push_str(match code {
        code::RET_K | code::RET_A => "",
        code::DIV_X | code::MOD_X => "the last instruction was not carried out: its divisor is 0\n",
        _ => "the last instruction was not carried out: a byte that it loads is not captured\n",
    })
}

/// Appends a run of a program, and what it answers.
fn put_traced(
    alloc: Global,
    text: &mut String,
    program: &Program,
    run: &Traced,
) -> Result<(), NoMemory> {
    text.push_str("\nprogram, with the registers after each instruction:\n")?;
    put_executed(alloc, text, program, run.executed.as_slice())?;
    put_broken_off(text, program, run.executed.as_slice())?;
    write!(text, "answer {}\n", run.answer)?;
    Ok(())
}

/// Appends the run of the program.
fn put_run(
    alloc: Global,
    text: &mut String,
    program: &Program,
    packet: &PacketRef<'_>,
) -> Result<(), NoMemory> {
    let run = trace(alloc, program, packet.bytes, packet.len)?;
    put_traced(alloc, text, program, &run)
}

/// Appends the run of the program, or why there is none.
fn put_program(
    alloc: Global,
    text: &mut String,
    program: Result<&Program, Refusal>,
    packet: &PacketRef<'_>,
) -> Result<(), NoMemory> {
    match program {
        Ok(program) => put_run(alloc, text, program, packet),
        Err(refusal) => Ok(write!(text, "\nthe expression has no program: {refusal}\n")?),
    }
}

/// What follows a packet's line.
pub(crate) fn whole_text(
    printer: &FullPrinter<'_, '_>,
    place: u64,
    packet: &PacketRef<'_>,
) -> Result<String, NoMemory> {
    let alloc = printer.alloc;
    let mut whole = WholeText {
        alloc,
        text: String::new(alloc),
        noted: Vec::new(alloc),
    };
    whole.put_whole(printer, place, packet)?;
    Ok(whole.text)
}
