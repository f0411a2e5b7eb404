//! Finished code without the instructions that nothing reaches.

ghost use Rattle.std.specs.Prelude.{◌≡◌, ℕ, ◌+◌, ◌<◌, ◌≤◌, List, false, length, slice_index_or};
ghost use Rattle.bpfvm.specs.Machine.{verdict};
ghost use Rattle.filtergen_trim.specs.Reaching.{IsAllReached};
ghost use Rattle.filtergen_trim.specs.Sound.{IsSoundCode};
ghost use Rattle.filtergen_trim.specs.Trimming.{onward_of, MayGo, IsSound, count_marked, shorten_jumps, trimmed, MarksNext, Marks};

use arrayvec::ArrayVec;
use bpfvm::{Insn, code};

/// The most instructions that code has before those that nothing reaches are taken out: 40 more
/// than a program.
pub const MAX_CODE: usize = 552;

// Clauses and definitions name the constant: it is this number.
const _: () = prove!(MAX_CODE == 552);

/// Where a run goes on after an instruction.
#[derive(Clone, Copy)]
enum Onward {
    /// Nowhere: it ends.
    Nowhere,
    /// At the instruction that follows.
    Next,
    /// After this number of further instructions.
    Jump(u32),
    /// After one of these numbers of further instructions.
    Either(u8, u8),
}

/// Where a run goes on after an instruction. Each opcode of a jump has its own arm, since the proof
/// goes by the opcode.
fn onward_of(insn: Insn) -> Onward
    requires { IsSound insn }
    ensures { result ≡ onward_of insn }
{
    let either = Onward::Either(insn.jt, insn.jf);
    match insn.code {
        code::RET_K => Onward::Nowhere,
        code::RET_A => Onward::Nowhere,
        code::JA => Onward::Jump(insn.k),
        code::JEQ_K => either,
        code::JEQ_X => either,
        code::JGT_K => either,
        code::JGT_X => either,
        code::JGE_K => either,
        code::JGE_X => either,
        code::JSET_K => either,
        code::JSET_X => either,
        _ => Onward::Next,
    }
}

/// Marks the places where a run goes on from a place.
fn mark_next(next: Onward, place: usize, marks: &mut [bool])
    requires { (n : ℕ) → MayGo next n → place + 1 + n < length marks.old }
    ensures { MarksNext place next marks.old marks.new }
{
    match next {
        Onward::Nowhere => {}
        Onward::Next => marks[place + 1] = true,
        Onward::Jump(passed) => marks[place + 1 + passed as usize] = true,
        Onward::Either(jt, jf) => {
            marks[place + 1 + usize::from(jt)] = true;
            marks[place + 1 + usize::from(jf)] = true;
        }
    }
}

/// Marks the places of code that are reached. Jumps only lead forward, so one walk finds them.
fn mark_reached(insns: &[Insn], marks: &mut [bool])
    requires code { IsSoundCode insns.now }
    requires room { length insns.now ≤ length marks.old }
    requires clear { (k : ℕ) → slice_index_or marks.old k false ≡ false }
    ensures size { length marks.new ≡ length marks.old }
    ensures marks { Marks insns.now marks.new }
{
    marks[0] = true;
    for (place, insn) in insns.iter().enumerate() {
        if marks[place] {
            mark_next(onward_of(*insn), place, marks);
        }
    }
}

/// How many of the first `passed` places are marked.
fn count_marked(after: &[bool], passed: usize) -> usize
    requires { passed ≤ length after.now }
    ensures value { result ≡ count_marked passed after.now }
    ensures within { result ≤ passed }
{
    let mut count = 0;
    for mark in &after[..passed] {
        if *mark {
            count += 1;
        }
    }
    count
}

/// The instruction, made to pass only those after it that are kept.
fn shorten_jumps(insn: Insn, after: &[bool]) -> Insn
    requires sound { IsSound insn }
    requires inside { (n : ℕ) → MayGo (onward_of insn) n → n ≤ length after.now }
    ensures { result ≡ shorten_jumps after.now insn }
{
    match onward_of(insn) {
        Onward::Nowhere => insn,
        Onward::Next => insn,
        Onward::Jump(passed) => Insn {
            k: count_marked(after, passed as usize) as u32,
            ..insn
        },
        Onward::Either(jt, jf) => Insn {
            jt: count_marked(after, usize::from(jt)) as u8,
            jf: count_marked(after, usize::from(jf)) as u8,
            ..insn
        },
    }
}

/// The instructions at the marked places.
fn keep_marked(insns: &[Insn], marks: &[bool]) -> ArrayVec<Insn, MAX_CODE>
    requires code { IsSoundCode insns.now }
    requires most { length insns.now ≤ MAX_CODE }
    requires room { length insns.now ≤ length marks.now }
    requires marks { Marks insns.now marks.now }
    ensures { result.items ≡ trimmed marks.now insns.now }
{
    let mut kept = ArrayVec::new();
    for (place, insn) in insns.iter().enumerate() {
        if marks[place] {
            kept.push(shorten_jumps(*insn, &marks[place + 1..]));
        }
    }
    kept
}

/// The code without the instructions that nothing reaches; it answers as before. Some path of jumps
/// leads from its first instruction to each of the others, though it may take a side that no packet
/// takes.
///
/// Code here is a program that may have up to [`MAX_CODE`] instructions.
pub fn trim_unreached(insns: &[Insn]) -> ArrayVec<Insn, MAX_CODE>
    requires code { IsSoundCode insns.now }
    requires most { length insns.now ≤ MAX_CODE }
    ensures code { IsSoundCode result.items }
    ensures shorter { length result.items ≤ length insns.now }
    ensures same { (packet : List ℕ) (wire : ℕ) → verdict result.items packet wire ≡ verdict insns.now packet wire }
    ensures reached { IsAllReached result.items }
{
    let mut marks = [false; MAX_CODE];
    mark_reached(insns, &mut marks);
    keep_marked(insns, &marks)
}
