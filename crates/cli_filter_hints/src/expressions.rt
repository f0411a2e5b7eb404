//! Hints on the faults of expressions.

ghost use Rattle.std.specs.Prelude.{◌≡◌, false};

use cli_report::stream::{HintSink, give_hint};
use filter_hints::{Advice, Caret, Excerpt, advise, advise_refusal};
use filtergen_facts::Refusal;
use filterlang::Fault;
use std::alloc::Global;

/// The sentence of an advice, and below it the way over libpcap's compiler if it has one.
fn hint_advice<E: HintSink>(advice: Advice<'_>, err: &mut E)
    ensures quiet { E.takes_hints err.old ≡ false → err.new ≡ err.old }
{
    give_hint(advice, err);
    if let Some(way) = advice.by_libpcap() {
        give_hint(way, err);
    }
}

/// Hints on an expression that is refused: the part of it round the fault's place, with a caret
/// under the place, and a sentence that helps. If the fault has no place there is only the
/// sentence, and of refused memory nothing is said. For what libpcap may read, the way over its
/// compiler follows.
///
/// A word is suggested only if the whole text with it put in is an expression, or reads on past it.
pub fn hint_text_fault<E: HintSink>(alloc: Global, text: &str, fault: Fault, err: &mut E)
    ensures quiet { E.takes_hints err.old ≡ false → err.new ≡ err.old }
{
    if let Some(place) = fault.place() {
        let excerpt = Excerpt::new(text, place);
        give_hint(excerpt, err);
        give_hint(Caret(excerpt), err);
    }
    if err.takes_hints() {
        if let Ok(Some(advice)) = advise(alloc, text, fault) {
            hint_advice(advice, err);
        }
    }
}

/// Hints on a tree that has no program: the ways out.
pub fn hint_refusal<E: HintSink>(refusal: Refusal, err: &mut E)
    ensures quiet { E.takes_hints err.old ≡ false → err.new ≡ err.old }
{
    if let Some(advice) = advise_refusal(refusal) {
        hint_advice(advice, err);
    }
}
