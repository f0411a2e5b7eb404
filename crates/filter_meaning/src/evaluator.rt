//! What an expression answers to a packet, without compiling it, and what it looks at.

ghost use Rattle.std.specs.Prelude.{◌≡◌, IfOk};
ghost use Rattle.filter_tree.specs.Trees.{amount_of, tree_of};
ghost use Rattle.filter_meaning.specs.Meaning.{packet_of, value, meaning};
ghost use Rattle.filter_meaning.specs.Looks.{verdict_of, looks, why, part_asked, packet};
ghost use Rattle.filter_meaning.specs.Notes.{Noted};

use crate::cause::AbortCause;
use crate::frame::{Frame, Look, Notes};
use crate::primitives::{Answer, primitive};
use crate::values::{relation, value};
use crate::verdict::Verdict;
use bpfvm::NoMemory;
use filter_tree::{Expr, Value};
use std::alloc::Global;

/// The number that a value is of a packet: its captured bytes, and its length on the wire in bytes.
/// There is none if it wants a byte that was not captured, or divides by 0.
pub fn value_of(amount: &Value, packet: &[u8], wire: u32) -> Option<u32>
    ensures { result ≡ value (amount_of amount.now) (packet_of packet.now wire) }
{
    let frame = Frame {
        bytes: packet,
        wire,
    };
    match value(amount, &frame, &mut Notes::none()) {
        Ok(number) => Some(number),
        Err(_) => None,
    }
}

/// A primitive or a relation. Of other expressions it asks nothing.
fn ask(part: &Expr, frame: &Frame<'_>, notes: &mut Notes) -> Answer
    ensures answer { result ≡ (part_asked (tree_of part.now) (packet frame.now)).answer }
    ensures noted { Noted notes.old notes.new (part_asked (tree_of part.now) (packet frame.now)).looks }
{
    match part {
        Expr::Test(asked) => primitive(*asked, frame, notes),
        Expr::Relation(comparison, left, right) => relation(*comparison, left, right, frame, notes),
        Expr::Everything => Ok(true),
        Expr::Not(_) => Ok(true),
        Expr::And(_, _) => Ok(true),
        Expr::Or(_, _) => Ok(true),
    }
}

/// What a primitive or a relation looks at, in the order of docs/LANGUAGE.md: bytes of the frame,
/// or the length on the wire. It looks no farther than its answer needs, so an Abort ends the list.
/// Of every other expression the list is empty: ask its parts.
///
/// `packet` is the captured bytes, and `wire` the packet's length on the wire. The answer depends
/// on nothing else: `answers_by_looks` in [`laws`](crate::laws). `NoMemory` if memory for the list
/// is refused.
pub fn looks_of(alloc: Global, part: &Expr, packet: &[u8], wire: u32) -> Result<Vec<Look>, NoMemory>
    ensures { IfOk result (λ found. found.items ≡ looks (tree_of part.now) (packet_of packet.now wire)) }
{
    let frame = Frame {
        bytes: packet,
        wire,
    };
    let mut notes = Notes::kept(alloc);
    let _ = ask(part, &frame, &mut notes);
    notes.into_looks().ok_or(NoMemory)
}

/// Why a primitive or a relation aborts; `None` if it answers Yes or No, and of every other
/// expression. It takes no memory.
///
/// The byte that it names is the first one that the test looks at ([`looks_of`]) and that was not
/// captured: `aborts_at_the_last_look` in [`laws`](crate::laws).
pub fn abort_cause(part: &Expr, packet: &[u8], wire: u32) -> Option<AbortCause>
    ensures { result ≡ why (tree_of part.now) (packet_of packet.now wire) }
{
    let frame = Frame {
        bytes: packet,
        wire,
    };
    ask(part, &frame, &mut Notes::none()).err()
}

/// What a primitive or a relation answers.
fn evaluate_part(part: &Expr, packet: &[u8], wire: u32) -> Verdict
    ensures { result ≡ verdict_of (part_asked (tree_of part.now) (packet_of packet.now wire)).answer }
{
    let frame = Frame {
        bytes: packet,
        wire,
    };
    match ask(part, &frame, &mut Notes::none()) {
        Ok(holds) => Verdict::of(holds),
        Err(_) => Verdict::Abort,
    }
}

/// What an expression answers to a packet: its captured bytes, and its length on the wire in bytes.
///
/// The packet is accepted if the answer is Yes. The program that `compile` of `filtergen` makes
/// of the expression says the same; this is for whoever wants to try a filter without it. It takes
/// no memory, and goes as deep as the tree. Of `and` and `or` the right operand is looked at only
/// if the left one does not decide.
pub fn evaluate(expr: &Expr, packet: &[u8], wire: u32) -> Verdict
    ensures { result ≡ meaning (tree_of expr.now) (packet_of packet.now wire) }
{
    match expr {
        Expr::Not(operand) => evaluate(operand, packet, wire).opposite(),
        Expr::And(left, right) => match evaluate(left, packet, wire) {
            Verdict::Yes => evaluate(right, packet, wire),
            decided => decided,
        },
        Expr::Or(left, right) => match evaluate(left, packet, wire) {
            Verdict::No => evaluate(right, packet, wire),
            decided => decided,
        },
        Expr::Everything => Verdict::Yes,
        Expr::Test(_) => evaluate_part(expr, packet, wire),
        Expr::Relation(_, _, _) => evaluate_part(expr, packet, wire),
    }
}
