//! What an expression answers to a packet, and what decides, as text.

ghost use Rattle.std.specs.Prelude.{◌≡◌, ◌++◌, IfOk, OnOk, codes, string_bytes};
ghost use Rattle.filter_tree.specs.Trees.{tree_of};
ghost use Rattle.filter_meaning.specs.Meaning.{meaning, packet_of};
ghost use Rattle.filter_explain.specs.Asking.{question_of};
ghost use Rattle.filter_explain.specs.Deciding.{verdict_text, part_text, cause_text, question_text, decision_text};

use crate::asking::AskedPart;
use crate::decided::decide;
use filter_meaning::{AbortCause, Verdict};
use filter_print::Canonical;
use filter_tree::Expr;
use std::alloc::AllocError;

/// A verdict's word: `Yes`, `No` or `Abort`.
pub fn verdict_text(verdict: Verdict) -> &'static str
    ensures { result.now ≡ verdict_text verdict }
{
    match verdict {
        Verdict::Yes => "Yes",
        Verdict::No => "No",
        Verdict::Abort => "Abort",
    }
}

/// Appends a primitive or a relation in its canonical form, with `not` before it if it is negated.
/// It fails if memory is refused; the line is then unspecified.
pub fn put_part(line: &mut String, part: &Expr, negated: bool) -> Result<(), AllocError>
    ensures { OnOk result (string_bytes line.new ≡ string_bytes line.old ++ part_text negated (tree_of part.now)) }
{
    match (negated, part) {
        (_, Expr::Everything) => write!(line, "the empty expression"),
        (false, _) => write!(line, "{}", Canonical(part)),
        (true, Expr::Relation(..)) => write!(line, "not ({})", Canonical(part)),
        (true, _) => write!(line, "not {}", Canonical(part)),
    }
}

/// Appends why a primitive or a relation aborted, if it did. It fails if memory is refused; the
/// line is then unspecified.
pub fn put_cause(line: &mut String, cause: Option<AbortCause>) -> Result<(), AllocError>
    ensures { OnOk result (string_bytes line.new ≡ string_bytes line.old ++ cause_text cause) }
{
    match cause {
        None => Ok(()),
        Some(AbortCause::NotCaptured(place)) => write!(line, ", byte {place} is not captured"),
        Some(AbortCause::ZeroDivisor) => write!(line, ", the divisor is 0"),
    }
}

/// Appends a primitive or a relation that was asked, and why it aborted.
fn put_asked(line: &mut String, asked: &AskedPart<'_>) -> Result<(), AllocError>
    ensures { OnOk result (string_bytes line.new ≡ string_bytes line.old ++ question_text (question_of asked.now)) }
{
    put_part(line, asked.part, asked.negated)?;
    put_cause(line, asked.cause)
}

/// Appends a verdict, and a space. It fails if memory is refused; the line is then unspecified.
pub fn put_verdict(line: &mut String, verdict: Verdict) -> Result<(), AllocError>
    ensures { OnOk result (string_bytes line.new ≡ string_bytes line.old ++ (verdict_text verdict ++ codes " ")) }
{
    line.push_str(verdict_text(verdict))?;
    line.push_str(" ")
}

/// Appends what an expression answers to a packet of `wire` bytes, of which these were captured,
/// and the primitive or relation that decides, with the cause of an Abort. The answer is that of
/// `evaluate`. It fails if memory is refused; the line is then unspecified.
pub fn put_decision(
    line: &mut String,
    expr: &Expr,
    packet: &[u8],
    wire: u32,
) -> Result<Verdict, AllocError>
    ensures told { OnOk result (string_bytes line.new ≡ string_bytes line.old ++ decision_text (tree_of expr.now) (packet_of packet.now wire)) }
    ensures verdict { IfOk result (λ verdict. verdict ≡ meaning (tree_of expr.now) (packet_of packet.now wire)) }
{
    let asked = decide(expr, packet, wire);
    let verdict = asked.answer();
    put_verdict(line, verdict)?;
    put_asked(line, &asked)?;
    Ok(verdict)
}
