//! How far jumps lead.

ghost use Rattle.std.specs.Prelude.{◌≡◌, ◌≤◌};
ghost use Rattle.bpf_asm.specs.Assembly.{has_label, is_defined, passed_by, ahead, label_distance, place_distance, distance};

use crate::fault::Cause;
use crate::instructions::Target;
use crate::line::Line;
use crate::token::Label;

/// Whether a line has this label.
fn has_label(label: &Label, line: &Line) -> bool
    ensures { result ≡ has_label label.now line.now }
{
    match line.label {
        Some(own) => own.bytes == label.bytes,
        None => false,
    }
}

/// Whether one of these lines has this label.
pub(crate) fn is_defined(label: &Label, lines: &[Line]) -> bool
    ensures { result ≡ is_defined label.now lines.now }
{
    lines.iter().any(|line| has_label(label, line))
}

/// How many instructions a jump past this line passes with it.
fn passed_by(line: &Line) -> usize
    ensures value { result ≡ passed_by line.now }
    ensures few { result ≤ 1 }
{
    if line.instruction.is_some() { 1 } else { 0 }
}

/// How many instructions come before the first of these lines that has this label.
fn ahead(label: &Label, lines: &[Line]) -> Option<usize>
    ensures { result ≡ ahead label.now lines.now }
{
    let mut passed = 0;
    for line in lines {
        if has_label(label, line) {
            return Some(passed);
        }
        passed += passed_by(line);
    }
    None
}

/// How many instructions a jump to this label passes, between the lines up to its own and those
/// that follow.
fn label_distance(label: &Label, so_far: &[Line], rest: &[Line]) -> Result<usize, Cause>
    ensures { result ≡ label_distance label.now so_far.now rest.now }
{
    match ahead(label, rest) {
        Some(passed) => Ok(passed),
        None if is_defined(label, so_far) => Err(Cause::JumpBack),
        None => Err(Cause::NoLabel),
    }
}

/// How many instructions a jump from one place to another passes.
fn place_distance(target: usize, place: usize) -> Result<usize, Cause>
    ensures { result ≡ place_distance target place }
{
    if place < target {
        Ok(target - place - 1)
    } else {
        Err(Cause::JumpBack)
    }
}

/// How many instructions the jump at a place passes on its way to a target.
pub(crate) fn distance(
    target: &Target,
    place: usize,
    so_far: &[Line],
    rest: &[Line],
) -> Result<usize, Cause>
    ensures { result ≡ distance target.now place so_far.now rest.now }
{
    match target {
        Target::Next => Ok(0),
        Target::Label(label) => label_distance(label, so_far, rest),
        Target::Place(target) => place_distance(*target as usize, place),
    }
}
