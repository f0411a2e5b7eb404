//! The files that a plan writes.

ghost use Rattle.std.specs.Prelude.{◌≡◌, IfOk, length, vec_len};
ghost use Rattle.std.specs.List.{AllZip};

use crate::plan::PlanLine;
use cli_files::paths::{Opening, STANDARD_OUTPUT, refuse_shared_files};
use cli_report::HintSink;
use cli_text::Status;
use fault_report::reporting::report_memory;
use std::alloc::{AllocError, Global};
use std::fs::Files;

/// Refuses, with a line on `err`, a plan by which something would be lost: an OUT is a file that is
/// read, the file of another OUT, or the one that lines are printed to.
pub fn check_outputs<'a, R: Files + AllocGlobal, L: PlanLine<'a>, E: HintSink>(
    rt: &R,
    read: &[&str],
    lines: &[L],
    err: &mut E,
) -> Result<(), Status> {
    let Ok(outputs) = outputs_of(rt.alloc(), lines) else {
        return Err(report_memory(err));
    };
    refuse_shared_files(
        rt,
        Opening::Late,
        Some(STANDARD_OUTPUT),
        read,
        outputs.as_slice(),
        err,
    )
}

/// The OUT of each line.
pub fn outputs_of<'a, L: PlanLine<'a>>(
    alloc: Global,
    lines: &[L],
) -> Result<Vec<&'a str>, AllocError>
    ensures outputs { IfOk result (λ outputs. AllZip (λ line output. output.now ≡ L.output_of line) lines.now outputs.items) }
    ensures all { IfOk result (λ outputs. vec_len outputs ≡ length lines.now) }
{
    let mut outputs = Vec::with_capacity(alloc, lines.len())?;
    for line in lines {
        outputs.push(line.output())?;
    }
    Ok(outputs)
}
