//! The run of a program, instruction by instruction.

ghost use Rattle.std.specs.Prelude.{◌≡◌, ℕ, List, IfOk};
ghost use Rattle.bpfvm.specs.Codes.{Operation, operation_of};
ghost use Rattle.bpfvm.specs.Machine.{verdict, beginning};
ghost use Rattle.bpfvm.specs.Next.{with_memory};
ghost use Rattle.bpfvm.specs.Traces.{entry, stored_by, Runs};

use crate::code;
use crate::fault::NoMemory;
use crate::insn::Insn;
use crate::machine::{Next, Registers, step};
use crate::program::Program;
use std::alloc::Global;

/// What an instruction stored into the scratch memory.
#[derive(Clone, Copy, Debug, PartialEq, Eq)]
pub struct Stored {
    /// The cell, from 0 to 15.
    pub cell: u32,
    pub value: u32,
}

/// An instruction that was executed, and what the machine holds after it.
#[derive(Clone, Copy, Debug, PartialEq, Eq)]
pub struct Executed {
    /// The instruction's place in its program, counted from 0.
    pub place: usize,
    /// The accumulator after it.
    pub accumulator: u32,
    /// The index register after it.
    pub index: u32,
    pub stored: Option<Stored>,
}

/// A run of a program on a packet.
#[derive(Debug, Drop)]
pub struct Traced {
    /// The instructions that were executed, in order; the last one ended the run, so there is at
    /// least one.
    pub executed: Vec<Executed>,
    /// The program's answer.
    pub answer: u32,
}

/// What an instruction stored, from the registers after it.
fn stored_by(insn: &Insn, registers: Registers) -> Option<Stored>
    ensures { (operation : Operation) (memory : List ℕ) → operation_of insn.now.code ≡ Some operation
        → result ≡ stored_by operation insn.now (with_memory registers memory) }
{
    match insn.code {
        code::ST => Some(Stored {
            cell: insn.k,
            value: registers.accumulator,
        }),
        code::STX => Some(Stored {
            cell: insn.k,
            value: registers.index,
        }),
        _ => None,
    }
}

/// The entry of an instruction at a place, from the registers after it.
fn entry(place: usize, insn: &Insn, registers: Registers) -> Executed
    ensures { (operation : Operation) (memory : List ℕ) → operation_of insn.now.code ≡ Some operation
        → result ≡ entry place operation insn.now (with_memory registers memory) }
{
    Executed {
        place,
        accumulator: registers.accumulator,
        index: registers.index,
        stored: stored_by(insn, registers),
    }
}

/// The run of a program on a packet: the instructions that [`run`](crate::run) executes, in order,
/// and its answer.
///
/// `packet` is the captured bytes, and `wire` the packet's original length. Each instruction is
/// listed with its place, both registers after it and what it stored. The last one ended the run: a
/// return, or a load past the captured bytes, a division or a modulo by X = 0, which leave the
/// registers as they were.
///
/// `NoMemory` if memory for this was refused. It takes at most some 16 KB, since a run executes no
/// instruction twice.
pub fn trace(alloc: Global, program: &Program, packet: &[u8], wire: u32) -> Result<Traced, NoMemory>
    ensures steps { IfOk result (λ run. Runs program.now packet.now wire beginning run.executed.items run.answer) }
    ensures answer { IfOk result (λ run. run.answer ≡ verdict program.now packet.now wire) }
{
    let insns = program.insns();
    let mut executed = Vec::new(alloc);
    let mut registers = Registers {
        accumulator: 0,
        index: 0,
    };
    let mut memory = [0u32; 16];
    let mut place = 0;
    loop {
        let insn = &insns[place];
        let before = registers;
        match step(insn, &mut registers, &mut memory, packet, wire) {
            Next::On(passed) => {
                executed.push(entry(place, insn, registers))?;
                place += 1 + passed as usize;
            }
            Next::End(answer) => {
                executed.push(entry(place, insn, before))?;
                return Ok(Traced { executed, answer });
            }
        }
    }
}
