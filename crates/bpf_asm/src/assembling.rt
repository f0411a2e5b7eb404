//! Lines made into instructions.

ghost use Rattle.std.specs.Prelude.{◌≡◌};
ghost use Rattle.bpf_asm.specs.Assembly.{short, long, short_distance, jump_insn, insn_of, is_repeated, is_placed, line_insn, insns_from};
ghost use Rattle.bpf_asm.specs.Answers.{Agrees};

use crate::fault::{AssemblyFault, Cause};
use crate::instructions::{Instruction, Target};
use crate::labels::{distance, is_defined};
use crate::line::Line;
use bpfvm::{Insn, code};
use std::alloc::Global;

/// A distance of a conditional jump, which passes 255 instructions at most.
fn short(passed: usize) -> Result<u8, Cause>
    ensures { result ≡ short passed }
{
    if passed > 255 {
        return Err(Cause::JumpTooFar);
    }
    Ok(passed as u8)
}

/// A distance of an unconditional jump.
fn long(passed: usize) -> Result<u32, Cause>
    ensures { result ≡ long passed }
{
    if passed > 4294967295 {
        return Err(Cause::JumpTooFar);
    }
    Ok(passed as u32)
}

/// The distance that a conditional jump has in its field.
fn short_distance(
    target: &Target,
    place: usize,
    so_far: &[Line],
    rest: &[Line],
) -> Result<u8, Cause>
    ensures { result ≡ short_distance target.now place so_far.now rest.now }
{
    let passed = distance(target, place, so_far, rest)?;
    short(passed)
}

/// A jump at a place.
fn jump_insn(target: &Target, place: usize, so_far: &[Line], rest: &[Line]) -> Result<Insn, Cause>
    ensures { result ≡ jump_insn target.now place so_far.now rest.now }
{
    let passed = distance(target, place, so_far, rest)?;
    let k = long(passed)?;
    Ok(Insn {
        code: code::JA,
        jt: 0,
        jf: 0,
        k,
    })
}

/// The instruction at a place, between the lines up to its own and those that follow.
fn insn_of(
    instruction: &Instruction,
    place: usize,
    so_far: &[Line],
    rest: &[Line],
) -> Result<Insn, Cause>
    ensures { result ≡ insn_of instruction.now place so_far.now rest.now }
{
    match instruction {
        Instruction::Plain(code, k) => Ok(Insn {
            code: *code,
            jt: 0,
            jf: 0,
            k: *k,
        }),
        Instruction::Jump(target) => jump_insn(target, place, so_far, rest),
        Instruction::Branch(code, k, first, second) => {
            let jt = short_distance(first, place, so_far, rest)?;
            let jf = short_distance(second, place, so_far, rest)?;
            Ok(Insn {
                code: *code,
                jt,
                jf,
                k: *k,
            })
        }
    }
}

/// Whether one of these lines has the label of this one.
fn is_repeated(line: &Line, before: &[Line]) -> bool
    ensures { result ≡ is_repeated line.now before.now }
{
    match &line.label {
        Some(label) => is_defined(label, before),
        None => false,
    }
}

/// Whether the place in front of a line's instruction, if there is one, is its own.
fn is_placed(line: &Line, place: usize) -> bool
    ensures { result ≡ is_placed line.now place }
{
    match line.place {
        Some(own) => own as usize == place,
        None => true,
    }
}

/// The instruction of a line, if it has one, among the lines before it, up to it, and after it.
fn line_insn(
    line: &Line,
    place: usize,
    before: &[Line],
    so_far: &[Line],
    rest: &[Line],
) -> Result<Option<Insn>, Cause>
    ensures { result ≡ line_insn line.now place before.now so_far.now rest.now }
{
    if is_repeated(line, before) {
        return Err(Cause::LabelTwice);
    }
    if !is_placed(line, place) {
        return Err(Cause::BadPlace);
    }
    match &line.instruction {
        None => Ok(None),
        Some(instruction) => {
            let insn = insn_of(instruction, place, so_far, rest)?;
            Ok(Some(insn))
        }
    }
}

/// The instructions of lines.
pub(crate) fn assemble(alloc: Global, lines: &[Line]) -> Result<Vec<Insn>, AssemblyFault>
    ensures { Agrees (λ insns. insns.items) result (insns_from lines.now 0 0 lines.now) }
{
    let mut insns = Vec::new(alloc);
    for (n, line) in lines.iter().enumerate() {
        let so_far = &lines[..n + 1];
        match line_insn(line, insns.len(), &lines[..n], so_far, &lines[n + 1..]) {
            Ok(Some(insn)) => insns.push(insn)?,
            Ok(None) => {}
            Err(cause) => return Err(AssemblyFault::Line(n + 1, cause)),
        }
    }
    Ok(insns)
}
