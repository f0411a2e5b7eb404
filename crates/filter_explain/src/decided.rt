//! The primitive or relation that decides.

ghost use Rattle.std.specs.Prelude.{◌≡◌, false};
ghost use Rattle.filter_tree.specs.Trees.{tree_of};
ghost use Rattle.filter_meaning.specs.Meaning.{packet_of, meaning};
ghost use Rattle.filter_meaning.specs.Looks.{packet};
ghost use Rattle.filter_explain.specs.Asking.{question_of, question, questions, turned, IsLast};

use crate::asking::{AskedPart, cause_of};
use filter_meaning::{Frame, Verdict, evaluate};
use filter_tree::Expr;

impl AskedPart<'_> {
    /// Its answer, turned if it is negated. For the part that decides this is the answer of the
    /// whole expression.
    pub fn answer(&self) -> Verdict
        ensures { result ≡ turned self.now.negated self.now.verdict }
    {
        if self.negated {
            self.verdict.opposite()
        } else {
            self.verdict
        }
    }
}

/// Asks a primitive or a relation, which is then the last one that was asked.
#[inline(never)]
fn decide_part<'a>(
    part: &'a Expr,
    negated: bool,
    frame: &Frame<'_>,
    last: &mut AskedPart<'a>,
) -> Verdict
    ensures last { question_of last.new ≡ question negated (tree_of part.now) (packet frame.now) }
    ensures verdict { result ≡ meaning (tree_of part.now) (packet frame.now) }
{
    let verdict = evaluate(part, frame.bytes, frame.wire);
    let cause = cause_of(part, verdict, frame);
    *last = AskedPart {
        part,
        negated,
        verdict,
        cause,
    };
    verdict
}

/// Asks the parts of an expression, of whatever form, up to the one that decides. It returns no
/// more than an answer, since each level of an expression has one on the stack.
#[inline(never)]
#[cycle(decide)]
fn decide_in_compound<'a>(
    expr: &'a Expr,
    negated: bool,
    frame: &Frame<'_>,
    last: &mut AskedPart<'a>,
) -> Verdict
    ensures last { IsLast (question_of last.new) (questions negated (tree_of expr.now) (packet frame.now)) }
    ensures verdict { result ≡ meaning (tree_of expr.now) (packet frame.now) }
    ensures decides { turned negated result ≡ turned last.new.negated last.new.verdict }
{
    match expr {
        Expr::Everything => decide_part(expr, negated, frame, last),
        Expr::Test(_) => decide_part(expr, negated, frame, last),
        Expr::Relation(_, _, _) => decide_part(expr, negated, frame, last),
        Expr::Not(operand) => {
            let verdict = decide_in(operand, !negated, frame, last);
            verdict.opposite()
        }
        Expr::And(left, right) => {
            let verdict = decide_in(left, negated, frame, last);
            match verdict {
                Verdict::Yes => decide_in(right, negated, frame, last),
                Verdict::No => verdict,
                Verdict::Abort => verdict,
            }
        }
        Expr::Or(left, right) => {
            let verdict = decide_in(left, negated, frame, last);
            match verdict {
                Verdict::Yes => verdict,
                Verdict::No => decide_in(right, negated, frame, last),
                Verdict::Abort => verdict,
            }
        }
    }
}

/// Asks the parts of an expression up to the one that decides. It is inlined, so that a primitive
/// takes one call.
#[inline(always)]
#[cycle(decide)]
fn decide_in<'a>(
    expr: &'a Expr,
    negated: bool,
    frame: &Frame<'_>,
    last: &mut AskedPart<'a>,
) -> Verdict
    ensures last { IsLast (question_of last.new) (questions negated (tree_of expr.now) (packet frame.now)) }
    ensures verdict { result ≡ meaning (tree_of expr.now) (packet frame.now) }
    ensures decides { turned negated result ≡ turned last.new.negated last.new.verdict }
{
    match expr {
        Expr::Test(_) => decide_part(expr, negated, frame, last),
        _ => decide_in_compound(expr, negated, frame, last),
    }
}

/// The primitive or relation of an expression that decides on a packet: the last one that
/// [`explain`](crate::explain) lists. It takes no memory.
///
/// `packet` is the captured bytes, and `wire` the packet's original length. Its
/// [`AskedPart::answer`] is what [`evaluate`](filter_meaning::evaluate) returns for the whole
/// expression.
pub fn decide<'a>(expr: &'a Expr, packet: &[u8], wire: u32) -> AskedPart<'a>
    ensures last { IsLast (question_of result) (questions false (tree_of expr.now) (packet_of packet.now wire)) }
    ensures decides { meaning (tree_of expr.now) (packet_of packet.now wire) ≡ turned result.negated result.verdict }
{
    let frame = Frame {
        bytes: packet,
        wire,
    };
    let mut last = AskedPart {
        part: expr,
        negated: false,
        verdict: Verdict::Yes,
        cause: None,
    };
    decide_in(expr, false, &frame, &mut last);
    last
}
