//! The filter machine, beside what the program shows: its instructions and their names, its trace,
//! and its page's caller.

mod assembled;
mod caller;
mod named;
mod traced;

use crate::same::same;
use bpfvm::{Insn, NoMemory, read_listing};
use std::process::Abort;

/// The first instruction, and how many there are.
fn begins_so(rt: &impl Abort, insns: &[Insn], first: Insn, length: usize) {
    same(
        rt,
        (insns.first().copied(), insns.len()),
        (Some(first), length),
    );
}

#[test]
fn a_program_tells_its_instructions(rt: HostRuntime) {
    let program = read_listing(b"2\n0 1 2 3\n22 0 0 0").expect(&rt, "a program");
    let first = Insn {
        code: 0,
        jt: 1,
        jf: 2,
        k: 3,
    };
    begins_so(&rt, program.insns(), first, 2);
    assert!(rt; program.clone().expect(&rt, "memory") == program);
}

#[test]
fn refused_memory_is_reported_by_its_name(rt: HostRuntime) {
    let told = format!(in rt.alloc(); "{}", NoMemory).expect(&rt, "memory");
    same(&rt, told.as_str(), "NoMemory");
}
