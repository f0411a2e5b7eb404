//! The file LISTENERS of `bpftap steps`: the listeners that are asked for.

ghost use Rattle.std.specs.Prelude.{ℕ, List, IfOk, IfErr, IfSome, IfNone};
ghost use Rattle.tap_steps.specs.declared.filters.Spec.{Spec};
ghost use Rattle.tap_text.specs.Listeners.{AreFields, AreFirstOf, IsListenerLine, IsRefusedListeners};

use line_text::LineFault;
use line_text::fields::{capacity_and_mode, first_line, snapshot_length, split_once};
use std::alloc::{AllocError, Global};
use std::str;
use tap_steps::{Filter, MAX_LISTENERS, Spec};

/// What a line has before the first space, between it and the second, and after that.
fn fields(line: &[u8]) -> Option<(&[u8], &[u8], &[u8])>
    ensures some { IfSome result (λ f. AreFields line.now f.0.now f.1.now f.2.now) }
    ensures none { IfNone result ((snap capacity expression : List ℕ) → AreFields line.now snap capacity expression → ⊥) }
{
    let (snap, rest) = split_once(line, b' ')?;
    match split_once(rest, b' ') {
        Some((capacity, expression)) => Some((snap, capacity, expression)),
        None => Some((snap, rest, &[])),
    }
}

/// The listener of a line, `None` if the line lacks its form.
fn spec_of(alloc: Global, line: &[u8]) -> Result<Option<Spec>, AllocError>
    ensures some { IfOk result (λ found. IfSome found (λ spec. IsListenerLine line.now spec)) }
    ensures none { IfOk result (λ found. IfNone found ((spec : Spec) → IsListenerLine line.now spec → ⊥)) }
{
    let Some((snap, capacity, expression)) = fields(line) else {
        return Ok(None);
    };
    let Some(snap) = snapshot_length(snap) else {
        return Ok(None);
    };
    let Some((capacity, mode)) = capacity_and_mode(capacity) else {
        return Ok(None);
    };
    let Ok(expression) = str::from_utf8(expression) else {
        return Ok(None);
    };
    Ok(Some(Spec {
        filter: Filter::Text(String::from_str(alloc, expression)?),
        snap,
        capacity,
        mode,
    }))
}

/// How many listeners are kept at most: one more than a replay takes, so that too many can be
/// reported.
pub const MAX_KEPT: usize = MAX_LISTENERS + 1;

const _: () = prove!(MAX_KEPT == 65);

/// Reads the file LISTENERS, a listener on each line: `SNAP CAPACITY EXPRESSION`.
///
/// CAPACITY may have an `i` after its digits, for the mode Immediate. If EXPRESSION is empty, the
/// space before it may be missing. The listeners are those of the lines, in order, but at most
/// [`MAX_KEPT`], 65: further lines are checked, and not kept. [`LineFault::Listeners`] names the
/// first line, from 1, that lacks this form.
pub fn read_listeners(alloc: Global, text: &[u8]) -> Result<Vec<Spec>, LineFault>
    ensures ok { IfOk result (λ specs. AreFirstOf text.now specs.items) }
    ensures fault { IfErr result (λ fault. IsRefusedListeners text.now fault) }
{
    let mut specs = Vec::new(alloc);
    let mut number = 0;
    let mut rest = text;
    while !rest.is_empty() {
        let (line, after) = first_line(rest);
        number += 1;
        let Some(spec) = spec_of(alloc, line)? else {
            return Err(LineFault::Listeners(number));
        };
        if specs.len() < MAX_KEPT {
            specs.push(spec)?;
        }
        rest = after;
    }
    Ok(specs)
}
