//! A program that is kept in the caller's memory.

ghost use Rattle.std.specs.Prelude.{◌≡◌, List, map};
ghost use Rattle.std.specs.Borrow.{full_share, sem};
ghost use Rattle.std.specs.Ptr.{lies_at, room_at};
ghost use Rattle.bpfvm.specs.declared.insn.Insn.{Insn};
ghost use Rattle.bpfvm.specs.Machine.{verdict};
ghost use Rattle.bpfvm.specs.Validity.{IsValidProgram, IsRefusedAs};
ghost use Rattle.bpfvm.specs.contracts.program.Program.{the_row};
ghost use Rattle.bpftap_c.specs.Batches.{answer_in, answer_to, answers_joined};
ghost use Rattle.bpftap_c.specs.Insns.{insns_of};
ghost use Rattle.bpftap_c.specs.Memory.{Puts};
ghost use Rattle.bpftap_c.specs.Programs.{reject_all, IsLayout, IsPrepared, Prepares, HasFault, Lent, lies_lent};

use crate::batches::{BpftapPacket, BpftapSpan, put_answers, put_answers_in, put_answers_joined};
use crate::insns::{BpftapInsn, program_of};
use crate::outcome::{BpftapResult, Failure, code_of};
use bpfvm::{Insn, Program, code, run};

/// What C sees of a program: nothing.
#[repr(C)]
#[derive(Drop)]
pub struct BpftapProgram {
    hidden: u8,
}

/// How many bytes a program takes.
#[unsafe(no_mangle)]
pub extern "C" fn bpftap_program_size() -> usize
    ensures { IsLayout result }
{
    std::mem::size_of::<Program>()
}

/// The program that rejects every packet.
fn reject_all() -> Program
    ensures { result ≡ reject_all }
{
    Program::new(&[Insn {
        code: code::RET_K,
        jt: 0,
        jf: 0,
        k: 0,
    }])
    .unwrap()
}

/// The program that instructions are, or the one that rejects every packet.
fn prepared(insns: &[BpftapInsn]) -> Program
    ensures { IsPrepared (insns_of insns.now) result }
{
    match program_of(insns) {
        Ok(program) => program,
        Err(_) => reject_all(),
    }
}

/// 0, or the number of what is wrong with instructions.
fn fault_in(insns: &[BpftapInsn]) -> u32
    ensures { HasFault (insns_of insns.now) result }
{
    match program_of(insns) {
        Ok(_) => 0,
        Err(fault) => code_of(Failure::Program(fault)),
    }
}

/// Puts the program that instructions are into the caller's memory, of `bpftap_program_size` bytes,
/// and returns 0; or the number of what is wrong with them, and then the program in the memory
/// rejects every packet.
#[unsafe(no_mangle)]
pub unsafe extern "C" fn bpftap_program_init(at: *mut BpftapProgram, insns: &[BpftapInsn]) -> u32
    requires* { sem 𝓛 (room_at the_row at) }
    ensures* { ∃ₛ (λ (program : List Insn). sem 𝓛 (lies_at the_row full_share at program)
        ∗ ⌜ Prepares (insns_of insns.now) program result ⌝) }
{
    let to = at as *mut Program;
    let fault = fault_in(insns);
    to.write(prepared(insns));
    fault
}

/// What a program answers to a packet.
fn answer(program: &Program, packet: &[u8], wire: u32) -> u32
    ensures { result ≡ verdict program.now packet.now wire }
{
    run(program, packet, wire)
}

/// What the program in the caller's memory answers to a packet. It only reads the program, as
/// others may do at the same time.
#[unsafe(no_mangle)]
pub unsafe extern "C" fn bpftap_program_run(
    program: *const BpftapProgram,
    packet: &[u8],
    wire: u32,
) -> u32
    ghost lent: { Lent }
    requires* { sem 𝓛 (lies_lent program lent) }
    ensures* { sem 𝓛 (lies_lent program lent) ∗ ⌜ result ≡ verdict lent.insns packet.now wire ⌝ }
{
    let at = program as *const Program;
    answer(&*at, packet, wire)
}

/// Puts what the program in the caller's memory answers to each packet into the front of the
/// caller's array. As with [`bpftap_program_run`], the program is only read.
#[unsafe(no_mangle)]
pub unsafe extern "C" fn bpftap_program_run_each(
    program: *const BpftapProgram,
    packets: &[BpftapPacket<'_>],
    answers: &mut [u32],
) -> BpftapResult
    ghost lent: { Lent }
    requires* { sem 𝓛 (lies_lent program lent) }
    ensures* { sem 𝓛 (lies_lent program lent)
        ∗ ⌜ Puts (map (answer_to lent.insns) packets.now) answers.old answers.new result ⌝ }
{
    let at = program as *const Program;
    put_answers(packets, &*at, answers)
}

/// Puts what the program in the caller's memory answers to each packet of another memory into the
/// front of the caller's array.
#[unsafe(no_mangle)]
pub unsafe extern "C" fn bpftap_program_run_spans(
    program: *const BpftapProgram,
    memory: &[u8],
    spans: &[BpftapSpan],
    answers: &mut [u32],
) -> BpftapResult
    ghost lent: { Lent }
    requires* { sem 𝓛 (lies_lent program lent) }
    ensures* { sem 𝓛 (lies_lent program lent)
        ∗ ⌜ Puts (map (answer_in lent.insns memory.now) spans.now) answers.old answers.new result ⌝ }
{
    let at = program as *const Program;
    put_answers_in(&*at, memory, spans, answers)
}

/// Puts what the program in the caller's memory answers to each packet of another memory into the
/// front of the caller's array. The packets lie in that memory one after the other, and each has
/// all its bytes.
#[unsafe(no_mangle)]
pub unsafe extern "C" fn bpftap_program_run_joined(
    program: *const BpftapProgram,
    memory: &[u8],
    sizes: &[u32],
    answers: &mut [u32],
) -> BpftapResult
    ghost lent: { Lent }
    requires* { sem 𝓛 (lies_lent program lent) }
    ensures* { sem 𝓛 (lies_lent program lent)
        ∗ ⌜ Puts (answers_joined lent.insns memory.now sizes.now) answers.old answers.new result ⌝ }
{
    let at = program as *const Program;
    put_answers_joined(&*at, memory, sizes, answers)
}
