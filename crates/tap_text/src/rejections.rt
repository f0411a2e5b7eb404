//! Why an expression rejected a packet.

ghost use Rattle.std.specs.Prelude.{◌≡◌, ◌++◌, OnOk, codes, string_bytes};
ghost use Rattle.filter_tree.specs.Trees.{tree_of};
ghost use Rattle.filter_meaning.specs.Meaning.{packet_of};
ghost use Rattle.filter_explain.specs.Asking.{question_of};
ghost use Rattle.filter_explain.specs.Deciding.{decision_text};
ghost use Rattle.tap_text.specs.Rejections.{rejects, rejection, place_members, verdict_member, cause_member, question_members, decision_members, rejection_members, rejection_in};

use crate::buffer::LineBuffer;
use filter_explain::{AskedPart, decide, put_decision, put_part};
use filter_meaning::{AbortCause, Verdict};
use filterlang::Expr;
use line_text::{LineForm, put_string};
use listener::Fed;
use std::alloc::AllocError;
use tap_steps::{Answer, PlacedPacket};

/// Appends, after a colon, what an expression answers to a packet, and the primitive or relation
/// that decides.
fn put_decision_of(
    line: &mut String,
    expr: &Expr,
    packet: &[u8],
    wire: u32,
) -> Result<(), AllocError>
    ensures { OnOk result (string_bytes line.new ≡ string_bytes line.old ++ (codes ": " ++ decision_text (tree_of expr.now) (packet_of packet.now wire))) }
{
    write!(line, ": ")?;
    put_decision(line, expr, packet, wire)?;
    Ok(())
}

/// Whether an answer says that the filter rejects the packet.
fn rejects(answer: Answer) -> bool
    ensures { result ≡ rejects answer }
{
    match answer {
        Answer::Arrived(fed) => match fed {
            Fed::Passed => true,
            Fed::Stored => false,
            Fed::Held => false,
            Fed::Rotated => false,
            Fed::Dropped => false,
            Fed::Closed => false,
        },
        Answer::Flushed(_) => false,
        Answer::Read(_) => false,
        Answer::Closed => false,
    }
}

/// Appends to the answer to a packet why an expression rejected it, if one did.
fn put_rejection_text(
    line: &mut String,
    placed: &PlacedPacket,
    expr: &Option<Expr>,
    answer: Answer,
) -> Result<(), AllocError>
    ensures { OnOk result (string_bytes line.new ≡ string_bytes line.old ++ rejection placed.now expr.now answer) }
{
    if !rejects(answer) {
        return Ok(());
    }
    match expr {
        Some(expr) => put_decision_of(
            line,
            expr,
            placed.packet.bytes.as_slice(),
            placed.packet.len,
        ),
        None => Ok(()),
    }
}

/// Appends the capture and the place of a packet, as members of an object.
fn put_place(line: &mut String, placed: &PlacedPacket) -> Result<(), AllocError>
    ensures { OnOk result (string_bytes line.new ≡ string_bytes line.old ++ place_members placed.now) }
{
    write!(
        line,
        ",\"capture\":{},\"place\":{}",
        placed.capture, placed.place
    )
}

/// Appends what an expression answers, as a member.
fn put_verdict(line: &mut String, verdict: Verdict) -> Result<(), AllocError>
    ensures { OnOk result (string_bytes line.new ≡ string_bytes line.old ++ verdict_member verdict) }
{
    line.push_str(match verdict {
        Verdict::Yes => ",\"verdict\":\"yes\"",
        Verdict::No => ",\"verdict\":\"no\"",
        Verdict::Abort => ",\"verdict\":\"abort\"",
    })
}

/// Appends why a primitive or a relation aborted, if it did, as a member.
fn put_cause(line: &mut String, cause: Option<AbortCause>) -> Result<(), AllocError>
    ensures { OnOk result (string_bytes line.new ≡ string_bytes line.old ++ cause_member cause) }
{
    match cause {
        None => Ok(()),
        Some(AbortCause::NotCaptured(place)) => write!(line, ",\"cause\":{{\"byte\":{place}}}"),
        Some(AbortCause::ZeroDivisor) => line.push_str(",\"cause\":{\"divisor\":0}"),
    }
}

/// Appends the primitive or relation that decides, and why it aborted, as members. `text` may have
/// any text.
fn put_asked(line: &mut String, text: &mut String, asked: &AskedPart<'_>) -> Result<(), AllocError>
    ensures { OnOk result (string_bytes line.new ≡ string_bytes line.old ++ question_members (question_of asked.now)) }
{
    text.clear();
    put_part(text, asked.part, asked.negated)?;
    line.push_str(",\"decided\":")?;
    put_string(line, text.as_str())?;
    put_cause(line, asked.cause)
}

/// Appends what an expression answers to a packet, and the primitive or relation that decides, as
/// members.
fn put_decision_members(
    buffer: &mut LineBuffer,
    expr: &Expr,
    packet: &[u8],
    wire: u32,
) -> Result<(), AllocError>
    ensures { OnOk result (string_bytes buffer.new.line ≡ string_bytes buffer.old.line ++ decision_members (tree_of expr.now) (packet_of packet.now wire)) }
{
    let asked = decide(expr, packet, wire);
    put_verdict(&mut buffer.line, asked.answer())?;
    put_asked(&mut buffer.line, &mut buffer.text, &asked)
}

/// Appends to the answer to a packet why an expression rejected it, if one did, as members.
fn put_rejection_members(
    buffer: &mut LineBuffer,
    placed: &PlacedPacket,
    expr: &Option<Expr>,
    answer: Answer,
) -> Result<(), AllocError>
    ensures { OnOk result (string_bytes buffer.new.line ≡ string_bytes buffer.old.line ++ rejection_members placed.now expr.now answer) }
{
    if !rejects(answer) {
        return Ok(());
    }
    match expr {
        Some(expr) => put_decision_members(
            buffer,
            expr,
            placed.packet.bytes.as_slice(),
            placed.packet.len,
        ),
        None => Ok(()),
    }
}

/// Appends the packet that is answered, and why an expression rejected it, if one did, as members.
fn put_arrival_members(
    buffer: &mut LineBuffer,
    placed: &PlacedPacket,
    expr: &Option<Expr>,
    answer: Answer,
) -> Result<(), AllocError>
    ensures { OnOk result (string_bytes buffer.new.line ≡ string_bytes buffer.old.line ++ (place_members placed.now ++ rejection_members placed.now expr.now answer)) }
{
    put_place(&mut buffer.line, placed)?;
    put_rejection_members(buffer, placed, expr, answer)
}

/// Appends to the answer to a packet why an expression rejected it, if one did, and before that in
/// JSON the packet's capture and place.
pub fn put_rejection(
    form: LineForm,
    buffer: &mut LineBuffer,
    placed: &PlacedPacket,
    expr: &Option<Expr>,
    answer: Answer,
) -> Result<(), AllocError>
    ensures { OnOk result (string_bytes buffer.new.line ≡ string_bytes buffer.old.line ++ rejection_in form placed.now expr.now answer) }
{
    match form {
        LineForm::Text => put_rejection_text(&mut buffer.line, placed, expr, answer),
        LineForm::Json => put_arrival_members(buffer, placed, expr, answer),
    }
}
