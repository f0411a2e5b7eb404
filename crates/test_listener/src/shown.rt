//! What tests of listeners and of pairs show in the same form.

use bpfvm::{Insn, Program};
use listener::{Buffer, Counts, OpenFault};
use std::alloc::{AllocError, Global};

/// A program that accepts each packet, with at most this many bytes.
pub(crate) fn keeping(most: u32) -> Result<Program, bpfvm::Invalid> {
    Program::new(&[Insn {
        code: bpfvm::code::RET_K,
        jt: 0,
        jf: 0,
        k: most,
    }])
}

/// The bytes of a packet, no two of them alike.
pub(crate) const BYTES: [u8; 60] = [
    0, 1, 2, 3, 4, 5, 6, 7, 8, 9, 10, 11, 12, 13, 14, 15, 16, 17, 18, 19, 20, 21, 22, 23, 24, 25,
    26, 27, 28, 29, 30, 31, 32, 33, 34, 35, 36, 37, 38, 39, 40, 41, 42, 43, 44, 45, 46, 47, 48, 49,
    50, 51, 52, 53, 54, 55, 56, 57, 58, 59,
];

/// Adds the places of a buffer's messages, and `?` after one that lacks the first 32 of these
/// bytes.
pub(crate) fn put_places(buffer: &Buffer, out: &mut String) -> Result<(), AllocError> {
    for record in buffer.records() {
        write!(out, " {}", record.place)?;
        if record.bytes.len() != 32 || !BYTES.starts_with(record.bytes) {
            out.push_str("?")?;
        }
    }
    Ok(())
}

/// Adds what a listener or a pair has, and its counts.
pub(crate) fn put_state(
    hold: &Buffer,
    store: &Buffer,
    counts: Counts,
    out: &mut String,
) -> Result<(), AllocError> {
    out.push_str("held")?;
    put_places(hold, out)?;
    out.push_str(", stored")?;
    put_places(store, out)?;
    write!(
        out,
        "; {} {} {}",
        counts.received, counts.matched, counts.dropped
    )
}

/// The fault that was returned, or `Ok`.
pub(crate) fn told(alloc: Global, fault: Option<OpenFault>) -> Result<String, AllocError> {
    match fault {
        None => format!(in alloc; "Ok"),
        Some(fault) => format!(in alloc; "{fault}"),
    }
}
