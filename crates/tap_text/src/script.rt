//! The file SCRIPT: the steps of a replay.

ghost use Rattle.std.specs.Prelude.{IfOk, IfErr, IfSome, IfNone};
ghost use Rattle.tap_steps.specs.declared.step.Step.{Step};
ghost use Rattle.line_text.specs.Files.{IsFileOf};
ghost use Rattle.tap_text.specs.Script.{IsNamed, NamesNone, IsStepLine, IsRefusedScript};

use line_text::LineFault;
use line_text::fields::{first_line, number, split_once};
use std::alloc::Global;
use tap_steps::Step;

/// The step that a word names, with its listener; `None` if it names none.
fn step_named(word: &[u8], l: u32) -> Option<Step>
    ensures some { IfSome result (IsNamed word.now l) }
    ensures none { IfNone result (NamesNone word.now) }
{
    if word == b"flush".as_slice() {
        Some(Step::Flush(l))
    } else if word == b"read".as_slice() {
        Some(Step::Read(l))
    } else if word == b"close".as_slice() {
        Some(Step::Close(l))
    } else {
        None
    }
}

/// The step of a line, `None` if the line lacks its form.
fn step_of(line: &[u8]) -> Option<Step>
    ensures some { IfSome result (λ step. IsStepLine line.now step) }
    ensures none { IfNone result ((step : Step) → IsStepLine line.now step → ⊥) }
{
    if line == b"arrive".as_slice() {
        return Some(Step::Arrive);
    }
    let (word, l) = split_once(line, b' ')?;
    let l = number(l, u64::from(u32::MAX))? as u32;
    step_named(word, l)
}

/// Reads the file SCRIPT, a step on each line: `arrive`, `flush L`, `read L` or `close L`.
///
/// The steps are those of the lines, in order. [`LineFault::Script`] names the first line, from 1,
/// that lacks this form.
pub fn read_script(alloc: Global, text: &[u8]) -> Result<Vec<Step>, LineFault>
    ensures ok { IfOk result (λ steps. IsFileOf IsStepLine text.now steps.items) }
    ensures fault { IfErr result (λ fault. IsRefusedScript text.now fault) }
{
    let mut steps = Vec::new(alloc);
    let mut rest = text;
    while !rest.is_empty() {
        let (line, after) = first_line(rest);
        match step_of(line) {
            Some(step) => steps.push(step)?,
            None => return Err(LineFault::Script(steps.len() + 1)),
        }
        rest = after;
    }
    Ok(steps)
}
