//! Filters that are compared: expressions and programs.

ghost use Rattle.std.specs.Prelude.{◌≡◌, ◌<◌, IfOk, IfSome, IsTrue};
ghost use Rattle.filter_meaning.specs.Meaning.{decided};
ghost use Rattle.filter_same.specs.Filters.{filter_test, filter_accepts};
ghost use Rattle.filter_symbols.specs.Symbols.{SaysOf, Extends};
ghost use Rattle.filter_diagrams.specs.Programs.{ended, program_test};
ghost use Rattle.filter_same.specs.Same.{packet, AcceptSame};

use crate::alike::is_same_expr;
use crate::depth::{Limits, is_shallow};
use crate::witness::Witness;
use bpfvm::{How, Program, run_to_end};
use filter_diagrams::{Builder, Refusal};
use filter_meaning::{Verdict, evaluate};
use filter_tree::Expr;
use std::alloc::Global;

/// A filter: an expression, or a program of the filter machine.
#[derive(Clone, Copy)]
pub enum Filter<'a> {
    Expression(&'a Expr),
    Program(&'a Program),
}

/// Yes or No.
fn decided(says: bool) -> Verdict
    ensures { result ≡ decided says }
{
    if says { Verdict::Yes } else { Verdict::No }
}

/// What a program says of a packet. Bytes past the captured ones are an Abort, though the machine
/// answers 0.
fn program_verdict(program: &Program, witness: &Witness) -> Verdict
    ensures { result ≡ program_test program.now (packet witness.now) }
{
    match run_to_end(program, &witness.bytes, witness.wire).how {
        How::Returned(answer) => decided(answer > 0),
        How::NotCaptured | How::ZeroDivisor => Verdict::Abort,
    }
}

impl Filter<'_> {
    /// Whether an expression is within limits, so that what goes down in it needs a bounded stack.
    /// A program has no levels.
    pub(crate) fn is_shallow(self, limits: Limits) -> bool {
        match self {
            Filter::Expression(expr) => is_shallow(expr, limits),
            Filter::Program(_) => true,
        }
    }

    /// Whether both are the same expression, or have the same instructions.
    pub(crate) fn is_same(self, other: Filter<'_>) -> bool
        ensures { IsTrue result → AcceptSame (filter_accepts self.entry) (filter_accepts other.entry) }
    {
        match (self, other) {
            (Filter::Expression(expr), Filter::Expression(same)) => is_same_expr(expr, same),
            (Filter::Program(program), Filter::Program(same)) => program.insns() == same.insns(),
            _ => false,
        }
    }

    /// A node that says what the filter says.
    pub(crate) fn node(self, builder: &mut Builder, alloc: Global) -> Result<u32, Refusal>
        requires { IfSome builder.old.symbols.header (λ n. n < 16) }
        ensures means { IfOk result (SaysOf builder.new.symbols (filter_test self.entry)) }
        ensures extends { Extends builder.old.symbols builder.new.symbols }
    {
        match self {
            Filter::Expression(expr) => builder.tree(expr),
            Filter::Program(program) => builder.program(alloc, program),
        }
    }

    /// What the filter says of a packet.
    pub(crate) fn verdict(self, witness: &Witness) -> Verdict
        ensures { result ≡ filter_test self.entry (packet witness.now) }
    {
        match self {
            Filter::Expression(expr) => evaluate(expr, &witness.bytes, witness.wire),
            Filter::Program(program) => program_verdict(program, witness),
        }
    }
}
