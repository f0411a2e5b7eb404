//! What LINES of `bpftap split` asks for: the captures to write, and the program of each line's expression.

ghost use Rattle.std.specs.Prelude.{◌≡◌, ◌≤◌, IfErr, IfOk, codes, length};
ghost use Rattle.std.specs.List.{AllZip};
ghost use Rattle.cli_split.specs.Lines.{AreSplitLines, IsCompiled, IsRefusedPlan, IsSplitLine, is_null};

use cli_filter::plan::{
    Plan, PlanFault, PlanFaultText, PlanLine, compile_lines, output_and_expression, read_lines,
};
use line_text::fields::{snapshot_length, split_once};
use std::alloc::Global;

/// How many lines LINES has at most: each OUT is an open file with a buffer in front of it.
pub const MAX_LINES: usize = 1024;

const _: () = prove!(MAX_LINES == 1024);

/// The device that keeps nothing of what it takes.
pub const NULL_DEVICE: &str = "/dev/null";

/// Whether OUT is the null device.
pub(crate) fn is_null(output: &str) -> bool
    ensures { result ≡ is_null output.now }
{
    output == NULL_DEVICE
}

/// The capture that a line asks for.
#[derive(Clone, Copy, Debug)]
pub struct SplitLine<'a> {
    /// How many bytes of a packet are kept at most.
    pub snap: u32,
    /// OUT: the path of the capture to write.
    pub output: &'a str,
    /// The filter.
    pub expression: &'a str,
}

impl<'a> PlanLine<'a> for SplitLine<'a> {
    type Terms = ();

    ghost says = { λ _ line asked. IsSplitLine line asked };

    ghost output_of = { λ asked. asked.output.now };

    ghost expression_of = { λ asked. asked.expression.now };

    ghost snap_of = { λ asked. asked.snap };

    ghost shared = { is_null };

    /// `SNAP OUT EXPRESSION`: SNAP is decimal, at most 262,144, and 0 means that.
    fn read(line: &'a [u8], _terms: ()) -> Option<SplitLine<'a>> {
        let (snap, rest) = split_once(line, b' ')?;
        let snap = snapshot_length(snap)?;
        let (output, expression) = output_and_expression(rest)?;
        Some(SplitLine {
            snap,
            output,
            expression,
        })
    }

    fn output(&self) -> &'a str {
        self.output
    }

    fn expression(&self) -> &'a str {
        self.expression
    }

    fn snap(&self) -> u32 {
        self.snap
    }

    /// Lines may share the null device: what is written to it is only counted.
    fn is_shared(output: &str) -> bool
        ensures { result ≡ is_null output.now }
    {
        is_null(output)
    }
}

/// The fault of LINES, as it is printed.
pub fn fault_text(fault: PlanFault) -> PlanFaultText
    ensures file { result.file.now ≡ codes "Lines" }
    ensures fault { result.fault ≡ fault }
{
    PlanFaultText {
        file: "Lines",
        fault,
    }
}

/// Reads LINES, a capture on each line: `SNAP OUT EXPRESSION`; and compiles the expressions, each for its snapshot length.
///
/// SNAP is decimal, at most 262,144. OUT has a byte at least and no space, and no other line has it, unless it is
/// [`NULL_DEVICE`]. EXPRESSION is the rest of the line; if it is empty, the space before it may be missing. Both are UTF-8.
///
/// [`PlanFault::Line`] names the first line, from 1, that lacks this form; else [`PlanFault::TooMany`] says that there are more than
/// [`MAX_LINES`], and then no expression is compiled; else [`PlanFault::Expression`] names the first line, from 0, whose expression has no
/// program. [`PlanFault::NoMemory`] says that memory ran out.
pub fn read_plan(alloc: Global, text: &[u8]) -> Result<Plan<SplitLine<'_>>, PlanFault>
    ensures lines { IfOk result (λ plan. AreSplitLines text.now plan.lines.items) }
    ensures few { IfOk result (λ plan. length plan.lines.items ≤ MAX_LINES) }
    ensures programs { IfOk result (λ plan. AllZip IsCompiled plan.lines.items plan.programs.items) }
    ensures fault { IfErr result (λ fault. IsRefusedPlan text.now fault) }
    // What a split of the plan wants.
    ensures all { IfOk result (λ plan. length plan.programs.items ≡ length plan.lines.items) }
{
    let lines = read_lines(alloc, text, (), MAX_LINES + 1)?;
    if lines.len() > MAX_LINES {
        return Err(PlanFault::TooMany);
    }
    let programs = compile_lines(alloc, lines.as_slice())?;
    Ok(Plan { lines, programs })
}
