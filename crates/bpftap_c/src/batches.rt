//! Many packets in one call.

ghost use Rattle.std.specs.Prelude.{◌≡◌, length, map};
ghost use Rattle.bpftap_c.specs.Batches.{packet_in, answer_in, answer_to, answers_joined, Answers};
ghost use Rattle.bpftap_c.specs.Insns.{insns_of};
ghost use Rattle.bpftap_c.specs.Memory.{Puts};

use crate::insns::{BpftapInsn, program_of};
use crate::outcome::{BpftapResult, Failure, done, failed};
use bpfvm::{Program, run};

/// A packet: its captured bytes, and its length on the wire. In C a pointer, a length and a number.
#[repr(C)]
#[derive(Clone, Copy)]
pub struct BpftapPacket<'a> {
    pub bytes: &'a [u8],
    pub wire: u32,
}

/// Where a packet lies in a memory: `captured` bytes from `offset` on; and its length on the wire.
#[repr(C)]
#[derive(Clone, Copy, Debug)]
pub struct BpftapSpan {
    pub offset: u64,
    pub captured: u32,
    pub wire: u32,
}

/// The bytes of a packet; what would lie past the memory is not captured.
#[inline]
fn packet_in<'a>(memory: &'a [u8], span: &BpftapSpan) -> &'a [u8]
    ensures { result.now ≡ packet_in memory.now span.now }
{
    let offset = span.offset.min(memory.len() as u64) as usize;
    let rest = &memory[offset..];
    let captured = (span.captured as usize).min(rest.len());
    &rest[..captured]
}

/// Fills an array with what a program answers to each of some packets.
fn fill_answers(program: &Program, packets: &[BpftapPacket<'_>], answers: &mut [u32])
    requires { length answers.old ≡ length packets.now }
    ensures { answers.new ≡ map (answer_to program.now) packets.now }
{
    for place in 0..packets.len() {
        let packet = packets[place];
        answers[place] = run(program, packet.bytes, packet.wire);
    }
}

/// Fills an array with what a program answers to each packet of a memory.
fn fill_answers_in(program: &Program, memory: &[u8], spans: &[BpftapSpan], answers: &mut [u32])
    requires { length answers.old ≡ length spans.now }
    ensures { answers.new ≡ map (answer_in program.now memory.now) spans.now }
{
    for place in 0..spans.len() {
        let span = &spans[place];
        answers[place] = run(program, packet_in(memory, span), span.wire);
    }
}

/// Fills an array with what a program answers to each packet of a memory in which they lie one
/// after the other.
fn fill_answers_joined(program: &Program, memory: &[u8], sizes: &[u32], answers: &mut [u32])
    requires { length answers.old ≡ length sizes.now }
    ensures { answers.new ≡ answers_joined program.now memory.now sizes.now }
{
    let mut rest = memory;
    for place in 0..sizes.len() {
        let size = sizes[place];
        let (packet, after) = rest.split_at(rest.len().min(size as usize));
        answers[place] = run(program, packet, size);
        rest = after;
    }
}

/// Puts what a program answers to each of some packets into the front of the caller's array. The
/// packets come first, so that their lifetime has one number here and in the export that calls
/// this, whose proof is by hand.
pub(crate) fn put_answers(
    packets: &[BpftapPacket<'_>],
    program: &Program,
    answers: &mut [u32],
) -> BpftapResult
    ensures { Puts (map (answer_to program.now) packets.now) answers.old answers.new result }
{
    let size = packets.len();
    if answers.len() < size {
        return failed(Failure::NoRoom(size));
    }
    fill_answers(program, packets, &mut answers[..size]);
    done(size)
}

/// Puts what a program answers to each packet of a memory into the front of the caller's array.
pub(crate) fn put_answers_in(
    program: &Program,
    memory: &[u8],
    spans: &[BpftapSpan],
    answers: &mut [u32],
) -> BpftapResult
    ensures { Puts (map (answer_in program.now memory.now) spans.now) answers.old answers.new result }
{
    let size = spans.len();
    if answers.len() < size {
        return failed(Failure::NoRoom(size));
    }
    fill_answers_in(program, memory, spans, &mut answers[..size]);
    done(size)
}

/// Puts what a program answers to each packet of a memory, in which they lie one after the other,
/// into the front of the caller's array.
#[tactic(auto, using(crate::proofs::Joined::length_joined))]
pub(crate) fn put_answers_joined(
    program: &Program,
    memory: &[u8],
    sizes: &[u32],
    answers: &mut [u32],
) -> BpftapResult
    ensures { Puts (answers_joined program.now memory.now sizes.now) answers.old answers.new result }
{
    let size = sizes.len();
    if answers.len() < size {
        return failed(Failure::NoRoom(size));
    }
    fill_answers_joined(program, memory, sizes, &mut answers[..size]);
    done(size)
}

/// Validates instructions once, and puts what they answer to each packet into the front of the
/// caller's array.
#[unsafe(no_mangle)]
pub extern "C" fn bpftap_run_each(
    insns: &[BpftapInsn],
    packets: &[BpftapPacket<'_>],
    answers: &mut [u32],
) -> BpftapResult
    ensures { Answers (insns_of insns.now) (map (answer_to (insns_of insns.now)) packets.now) answers.old answers.new result }
{
    match program_of(insns) {
        Ok(program) => put_answers(packets, &program, answers),
        Err(fault) => failed(Failure::Program(fault)),
    }
}

/// Validates instructions once, and puts what they answer to each packet of a memory into the front
/// of the caller's array.
#[unsafe(no_mangle)]
pub extern "C" fn bpftap_run_spans(
    insns: &[BpftapInsn],
    memory: &[u8],
    spans: &[BpftapSpan],
    answers: &mut [u32],
) -> BpftapResult
    ensures { Answers (insns_of insns.now) (map (answer_in (insns_of insns.now) memory.now) spans.now) answers.old answers.new result }
{
    match program_of(insns) {
        Ok(program) => put_answers_in(&program, memory, spans, answers),
        Err(fault) => failed(Failure::Program(fault)),
    }
}

/// Validates instructions once, and puts what they answer to each packet of a memory into the front
/// of the caller's array. The packets lie in the memory one after the other, and each has all its
/// bytes.
#[unsafe(no_mangle)]
pub extern "C" fn bpftap_run_joined(
    insns: &[BpftapInsn],
    memory: &[u8],
    sizes: &[u32],
    answers: &mut [u32],
) -> BpftapResult
    ensures { Answers (insns_of insns.now) (answers_joined (insns_of insns.now) memory.now sizes.now) answers.old answers.new result }
{
    match program_of(insns) {
        Ok(program) => put_answers_joined(&program, memory, sizes, answers),
        Err(fault) => failed(Failure::Program(fault)),
    }
}
