//! An expression's program.

ghost use Rattle.std.specs.Prelude.{◌≡◌, ◌<◌, ◌≤◌, ◌↔◌, Some, length, IfOk, IfErr, IsErr, IsErrOf, IsOkUnless};
ghost use Rattle.filterlang.specs.Texts.{ReadsAs};
ghost use Rattle.filter_tree.specs.Trees.{Tree};
ghost use Rattle.filtergen_facts.specs.Weights.{need};
ghost use Rattle.filtergen_code.specs.Compiling.{Fits, IsBadSnap};
ghost use Rattle.filtergen_trim.specs.Reaching.{IsAllReached};
ghost use Rattle.filtergen.specs.Faults.{expression_fault_name, expression_fault_place, expression_fault_text};
ghost use Rattle.filtergen.specs.Expressions.{IsProgramOf, IsUncompiled};

use crate::{Refusal, compile};
use bpfvm::Program;
use filterlang::{Fault, parse};
use std::alloc::Global;
use std::fmt;
use std::fmt::{Display, Formatter};
use thiserror::Error;

/// Why an expression has no program. It prints as the inner fault does.
#[derive(Clone, Copy, Debug, PartialEq, Eq, Error)]
pub enum ExpressionFault {
    /// The text is refused: no tree reads it, or memory ran out.
    Text(Fault),
    /// Its tree is not compiled.
    Tree(Refusal),
}

impl ExpressionFault {
    /// Its name, without a place.
    pub fn name(self) -> &'static str
        ensures { result.now ≡ expression_fault_name self }
    {
        match self {
            ExpressionFault::Text(fault) => fault.name(),
            ExpressionFault::Tree(refusal) => refusal.name(),
        }
    }

    /// The byte at which the text is at fault, counted from 0.
    pub fn place(self) -> Option<usize>
        ensures { result ≡ expression_fault_place self }
    {
        match self {
            ExpressionFault::Text(fault) => fault.place(),
            ExpressionFault::Tree(_) => None,
        }
    }
}

impl Display for ExpressionFault {
    ghost output = { λ fault. Some (expression_fault_text fault) };

    fn fmt<W: fmt::Write>(&self, f: &mut Formatter<W>) -> fmt::Result {
        match self {
            ExpressionFault::Text(fault) => write!(f, "{fault}"),
            ExpressionFault::Tree(refusal) => write!(f, "{refusal}"),
        }
    }
}

/// The program of an expression: it returns the snapshot length if the expression accepts a packet,
/// and else 0. Some path of jumps leads from its first instruction to each of the others.
///
/// The text is read first, and refused as [`parse`] refuses it, also if memory runs out. A text is
/// refused as too long if and only if it has more than 8,192 bytes. If it reads, its tree is
/// refused as [`compile`] refuses it: the first of `BadSnap`, `TooDeep` and `TooLong` that applies.
pub fn compile_text(alloc: Global, text: &str, snap: u32) -> Result<Program, ExpressionFault>
    ensures program { IfOk result (λ program. IsProgramOf text.now snap program) }
    ensures reached { IfOk result IsAllReached }
    // Why there is none, and when there is one: a snapshot length out of range gives none, nor does
    // a tree that is too deep.
    ensures fault { IfErr result (IsUncompiled text.now snap) }
    ensures text_too_long { IsErrOf result (ExpressionFault.Text Fault.TextTooLong) ↔ (8192 < length text.now) }
    ensures bad_snap { IsBadSnap snap → IsErr result }
    ensures too_deep { (tree : Tree) → ReadsAs text.now tree → 16 < need tree → IsErr result }
    ensures fits { (tree : Tree) → length text.now ≤ 8192 → ReadsAs text.now tree → Fits tree snap →
        IsOkUnless result (ExpressionFault.Text Fault.NoMemory) }
{
    match parse(alloc, text) {
        Ok(expr) => match compile(&expr, snap) {
            Ok(program) => Ok(program),
            Err(refusal) => Err(ExpressionFault::Tree(refusal)),
        },
        Err(fault) => Err(ExpressionFault::Text(fault)),
    }
}
