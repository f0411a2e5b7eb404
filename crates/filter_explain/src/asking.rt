//! The primitives and relations that a packet is asked.

ghost use Rattle.std.specs.Prelude.{◌≡◌, ◌++◌, [], ◌∷◌, map, IfOk, false};
ghost use Rattle.filter_tree.specs.Trees.{tree_of};
ghost use Rattle.filter_meaning.specs.Meaning.{packet_of, meaning};
ghost use Rattle.filter_meaning.specs.Looks.{packet, why};
ghost use Rattle.filter_explain.specs.Asking.{where_abort, question_of, question, questions, LastDecides};

use bpfvm::NoMemory;
use filter_meaning::{AbortCause, Frame, Verdict, abort_cause, evaluate};
use filter_tree::Expr;
use std::alloc::Global;

/// A primitive or a relation that was asked, and what it answered.
#[derive(Clone, Copy, Debug)]
pub struct AskedPart<'a> {
    /// The primitive or the relation, as the expression has it; or the empty expression.
    pub part: &'a Expr,
    /// An odd number of `not` apply to it.
    pub negated: bool,
    /// Its own answer, which no `not` has turned.
    pub verdict: Verdict,
    /// Why it aborted, and only there.
    pub cause: Option<AbortCause>,
}

/// Why a part aborts that answered this.
pub(crate) fn cause_of(part: &Expr, verdict: Verdict, frame: &Frame<'_>) -> Option<AbortCause>
    ensures { result ≡ where_abort verdict (why (tree_of part.now) (packet frame.now)) }
{
    match verdict {
        Verdict::Yes => None,
        Verdict::No => None,
        Verdict::Abort => abort_cause(part, frame.bytes, frame.wire),
    }
}

/// Asks a primitive or a relation, and appends its answer.
fn ask_part<'a>(
    part: &'a Expr,
    negated: bool,
    frame: &Frame<'_>,
    asked: &mut Vec<AskedPart<'a>>,
) -> Result<Verdict, NoMemory>
    ensures verdict { IfOk result (λ verdict. verdict ≡ meaning (tree_of part.now) (packet frame.now)) }
    ensures asked { IfOk result (λ _. map question_of asked.new.items
        ≡ map question_of asked.old.items ++ question negated (tree_of part.now) (packet frame.now) ∷ []) }
{
    let verdict = evaluate(part, frame.bytes, frame.wire);
    let cause = cause_of(part, verdict, frame);
    asked.push(AskedPart {
        part,
        negated,
        verdict,
        cause,
    })?;
    Ok(verdict)
}

/// Asks the parts of an expression, and appends their answers.
fn ask<'a>(
    expr: &'a Expr,
    negated: bool,
    frame: &Frame<'_>,
    asked: &mut Vec<AskedPart<'a>>,
) -> Result<Verdict, NoMemory>
    ensures verdict { IfOk result (λ verdict. verdict ≡ meaning (tree_of expr.now) (packet frame.now)) }
    ensures asked { IfOk result (λ _. map question_of asked.new.items
        ≡ map question_of asked.old.items ++ questions negated (tree_of expr.now) (packet frame.now)) }
{
    match expr {
        Expr::Everything => ask_part(expr, negated, frame, asked),
        Expr::Test(_) => ask_part(expr, negated, frame, asked),
        Expr::Relation(_, _, _) => ask_part(expr, negated, frame, asked),
        Expr::Not(operand) => {
            let verdict = ask(operand, !negated, frame, asked)?;
            Ok(verdict.opposite())
        }
        Expr::And(left, right) => match ask(left, negated, frame, asked)? {
            Verdict::Yes => ask(right, negated, frame, asked),
            Verdict::No => Ok(Verdict::No),
            Verdict::Abort => Ok(Verdict::Abort),
        },
        Expr::Or(left, right) => match ask(left, negated, frame, asked)? {
            Verdict::Yes => Ok(Verdict::Yes),
            Verdict::No => ask(right, negated, frame, asked),
            Verdict::Abort => Ok(Verdict::Abort),
        },
    }
}

/// The primitives and relations of an expression that a packet is asked, from left to right, each
/// with its answer and why it aborts.
///
/// `packet` is the captured bytes, and `wire` the packet's original length. The right operand of
/// `and` is asked only after a Yes, that of `or` only after a No. The empty expression is listed
/// itself, with its answer Yes. The last one decides: its answer, turned if it is negated, is what
/// [`evaluate`](filter_meaning::evaluate) returns for the expression.
///
/// `NoMemory` if memory for the list was refused.
pub fn explain<'a>(
    alloc: Global,
    expr: &'a Expr,
    packet: &[u8],
    wire: u32,
) -> Result<Vec<AskedPart<'a>>, NoMemory>
    ensures asked { IfOk result (λ asked. map question_of asked.items
        ≡ questions false (tree_of expr.now) (packet_of packet.now wire)) }
    ensures decides { IfOk result (λ asked. LastDecides (map question_of asked.items)
        (meaning (tree_of expr.now) (packet_of packet.now wire))) }
{
    let frame = Frame {
        bytes: packet,
        wire,
    };
    let mut asked = Vec::new(alloc);
    ask(expr, false, &frame, &mut asked)?;
    Ok(asked)
}
