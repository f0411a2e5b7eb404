//! What is printed of a packet, and of a filter's answer to it.

ghost use Rattle.std.specs.Prelude.{◌≡◌, ◌++◌, Some, IfOk, OnOk, string_bytes};
ghost use Rattle.filterlang.specs.Trees.{tree_of};
ghost use Rattle.cli_answers.specs.Answers.{Decides, EndsRun, IsAnswer, PutsAnswer};
ghost use Rattle.cli_answers.specs.Printed.{packet_text, time_text, lengths_text, end_text};

use crate::filter::AskedFilter;
use crate::run_end::{end_of_run, ended_as};
use bpfvm::{Brief, Insn, NoMemory, Program};
use filter_explain::{put_decision, put_verdict};
use filter_meaning::Verdict;
use filterlang::Expr;
use line_text::time::NineDigits;
use savefile::PacketRef;
use std::fmt;
use std::fmt::{Display, Formatter};

/// A packet's place and its time.
#[derive(Clone, Copy)]
struct PacketTime<'a> {
    place: u64,
    packet: &'a PacketRef<'a>,
}

impl Display for PacketTime<'_> {
    ghost output = { λ time. Some (time_text time.place time.packet.now) };

    #[tactic(auto, unfolding(crate::specs::Printed::time_text))]
    fn fmt<W: fmt::Write>(&self, f: &mut Formatter<W>) -> fmt::Result {
        let PacketTime { place, packet } = *self;
        write!(
            f,
            "place {place} time {}.{}",
            packet.sec,
            NineDigits(packet.nanos)
        )
    }
}

/// How long a packet was on the wire, and how many bytes of it were captured.
#[derive(Clone, Copy)]
struct PacketLengths<'a>(&'a PacketRef<'a>);

impl Display for PacketLengths<'_> {
    ghost output = { λ lengths. Some (lengths_text lengths.0.now) };

    #[tactic(auto, unfolding(crate::specs::Printed::lengths_text))]
    fn fmt<W: fmt::Write>(&self, f: &mut Formatter<W>) -> fmt::Result {
        let packet = self.0;
        let captured = packet.bytes.len();
        write!(f, " len {} captured {captured} ", packet.len)
    }
}

/// Puts a packet's place, its time and its lengths in place of what the line has.
pub fn put_packet(line: &mut String, place: u64, packet: &PacketRef<'_>) -> Result<(), NoMemory>
    ensures { OnOk result (string_bytes line.new ≡ packet_text place packet.now) }
{
    let time = PacketTime { place, packet };
    line.clear();
    write!(line, "{time}{}", PacketLengths(packet))?;
    Ok(())
}

/// Appends what an expression answers to a packet, and what decides.
fn put_meaning(line: &mut String, expr: &Expr, packet: &PacketRef<'_>) -> Result<Verdict, NoMemory>
    ensures { IfOk result (PutsAnswer (string_bytes line.old) (string_bytes line.new) (Decides (tree_of expr.now)) packet.now) }
{
    Ok(put_decision(line, expr, packet.bytes, packet.len)?)
}

/// Appends the number that a program answers, the place where its run ended, and the instruction
/// there.
#[tactic(auto, unfolding(crate::specs::Printed::end_text))]
fn put_number(line: &mut String, number: u32, place: usize, insn: &Insn) -> Result<(), NoMemory>
    ensures { OnOk result (string_bytes line.new ≡ string_bytes line.old ++ end_text number place insn.now) }
{
    write!(line, "{number} at {place}: {}", Brief(insn))?;
    Ok(())
}

/// Appends what a program answers to a packet, where its run ended, and the instruction there.
fn put_end(
    line: &mut String,
    program: &Program,
    packet: &PacketRef<'_>,
) -> Result<Verdict, NoMemory>
    ensures { IfOk result (PutsAnswer (string_bytes line.old) (string_bytes line.new) (EndsRun program.now) packet.now) }
{
    let end = end_of_run(program, packet);
    let verdict = ended_as(&end.insn, end.number);
    put_verdict(line, verdict)?;
    put_number(line, end.number, end.place, &end.insn)?;
    Ok(verdict)
}

/// Appends what a filter answers to a packet, and why.
pub fn put_answer(
    line: &mut String,
    filter: &AskedFilter,
    packet: &PacketRef<'_>,
) -> Result<Verdict, NoMemory>
    ensures { IfOk result (PutsAnswer (string_bytes line.old) (string_bytes line.new) (IsAnswer filter.now) packet.now) }
{
    match filter {
        AskedFilter::Expression(expr) => put_meaning(line, expr, packet),
        AskedFilter::Program(program) => put_end(line, program, packet),
    }
}
