//! Runs of a program, instruction by instruction.

ghost use Rattle.std.specs.Prelude.{◌≡◌, length, map, IfOk, IfErr};
ghost use Rattle.bpftap_c.specs.Insns.{insns_of};
ghost use Rattle.bpftap_c.specs.Memory.{Puts};
ghost use Rattle.bpftap_c.specs.Traces.{cell_of, executed_of, traced_of, untraced, value_of, IsRun, IsRunless, PutsRun};

use crate::insns::{BpftapInsn, program_of};
use crate::outcome::{BpftapResult, Failure, done, failed};
use bpfvm::{Executed, Stored, Traced, trace};
use std::alloc::Global;

/// An instruction that was executed, and what the machine holds after it.
#[repr(C)]
#[derive(Clone, Copy, Debug, PartialEq, Eq)]
pub struct BpftapExecuted {
    /// The instruction, counted from 0.
    pub place: usize,
    pub accumulator: u32,
    pub index: u32,
    /// The cell of scratch memory that it stored into, or 16 if it stored nothing.
    pub cell: u32,
    /// What it stored, or 0.
    pub value: u32,
}

/// What `bpftap_trace` returns.
#[repr(C)]
#[derive(Clone, Copy, Debug, PartialEq, Eq)]
pub struct BpftapTraced {
    /// 0, or the number of a fault.
    pub fault: u32,
    /// The program's answer.
    pub answer: u32,
    /// How many instructions were executed.
    pub size: usize,
    /// Where the fault is.
    pub place: usize,
}

/// The cell that was stored into.
fn cell_of(stored: Option<Stored>) -> u32
    ensures { result ≡ cell_of stored }
{
    match stored {
        Some(stored) => stored.cell,
        None => 16,
    }
}

/// What was stored.
fn value_of(stored: Option<Stored>) -> u32
    ensures { result ≡ value_of stored }
{
    match stored {
        Some(stored) => stored.value,
        None => 0,
    }
}

/// An instruction that was executed, as C has it.
fn executed_of(executed: &Executed) -> BpftapExecuted
    ensures { result ≡ executed_of executed.now }
{
    BpftapExecuted {
        place: executed.place,
        accumulator: executed.accumulator,
        index: executed.index,
        cell: cell_of(executed.stored),
        value: value_of(executed.stored),
    }
}

/// Fills an array with the instructions that were executed.
fn fill_executed(run: &[Executed], to: &mut [BpftapExecuted])
    requires { length to.old ≡ length run.now }
    ensures { to.new ≡ map executed_of run.now }
{
    for place in 0..run.len() {
        to[place] = executed_of(&run[place]);
    }
}

/// Puts the instructions that were executed into the front of the caller's array.
fn put_executed(run: &[Executed], to: &mut [BpftapExecuted]) -> BpftapResult
    ensures { Puts (map executed_of run.now) to.old to.new result }
{
    let size = run.len();
    if to.len() < size {
        return failed(Failure::NoRoom(size));
    }
    fill_executed(run, &mut to[..size]);
    done(size)
}

/// The run of instructions on a packet, or why there is none.
fn run_of(alloc: Global, insns: &[BpftapInsn], packet: &[u8], wire: u32) -> Result<Traced, Failure>
    ensures ok { IfOk result (λ run. IsRun (insns_of insns.now) packet.now wire run.executed.items run.answer) }
    ensures err { IfErr result (IsRunless (insns_of insns.now)) }
{
    let program = match program_of(insns) {
        Ok(program) => program,
        Err(fault) => return Err(Failure::Program(fault)),
    };
    match trace(alloc, &program, packet, wire) {
        Ok(run) => Ok(run),
        Err(_) => Err(Failure::NoMemory),
    }
}

/// The result of a call, and the program's answer beside it.
fn traced(told: BpftapResult, answer: u32) -> BpftapTraced
    ensures { result ≡ traced_of told answer }
{
    BpftapTraced {
        fault: told.fault,
        answer,
        size: told.size,
        place: told.place,
    }
}

/// Runs a program on a packet, and puts each instruction that it executes, in order, into the front
/// of the caller's array, with both registers after it and what it stored. The last one ends the
/// run. There are at most 512. The answer is returned also if the array has no room.
#[unsafe(no_mangle)]
pub extern "C" fn bpftap_trace(
    alloc: Global,
    insns: &[BpftapInsn],
    packet: &[u8],
    wire: u32,
    to: &mut [BpftapExecuted],
) -> BpftapTraced
    ensures { PutsRun (insns_of insns.now) packet.now wire to.old to.new result }
{
    match run_of(alloc, insns, packet, wire) {
        Ok(run) => traced(put_executed(&run.executed, to), run.answer),
        Err(failure) => traced(failed(failure), 0),
    }
}
