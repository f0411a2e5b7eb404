//! What helps to fix an expression that is refused.

ghost use Rattle.std.specs.Prelude.{◌≡◌, ◌≢◌, IfErr, IfNone, IfOk, IfSome, Result, List, [], true, false, string_bytes, ℕ};
ghost use Rattle.bpftap_c.specs.declared.outcome.Failure.{Failure};
ghost use Rattle.bpftap_c.specs.Hints.{has_hint, IsAdviceOn, IsHinted, IsHintOn, IsNoRefusal, IsNoTextFault, IsPlaced, IsSettled, Says};
ghost use Rattle.bpftap_c.specs.Memory.{DeliversText};
ghost use Rattle.bpftap_c.specs.Outcome.{text_code, tree_code};

use crate::filters::text_of;
use crate::memory::put_text;
use crate::outcome::{BpftapResult, Failure, failed};
use filter_hints::{Advice, advise, advise_refusal};
use filtergen::Refusal;
use filterlang::Fault;
use std::alloc::{AllocError, Global};

/// What is said of a fault with a hint for which an advice has no words.
const EXPLAINED: &str = "docs/FAULTS.md explains each fault";

/// The fault of a text that has this number, at this place.
fn text_fault(code: u32, place: usize) -> Option<Fault>
    ensures some { IfSome result (λ fault. (text_code fault ≡ code) × IsPlaced fault place) }
    ensures none { IfNone result (IsNoTextFault code) }
{
    match code {
        32 => Some(Fault::TextTooLong),
        33 => Some(Fault::BadByte(place)),
        34 => Some(Fault::BadWord(place)),
        35 => Some(Fault::BadNumber(place)),
        36 => Some(Fault::Syntax(place)),
        37 => Some(Fault::NoQualifier(place)),
        38 => Some(Fault::BadQualifier(place)),
        39 => Some(Fault::BadIdentifier(place)),
        40 => Some(Fault::NetBits(place)),
        41 => Some(Fault::OutOfRange(place)),
        42 => Some(Fault::DivideByZero(place)),
        43 => Some(Fault::TooNested(place)),
        _ => None,
    }
}

/// The refusal of an expression by the compiler that has this number.
fn refusal_of(code: u32) -> Option<Refusal>
    ensures some { IfSome result (λ refusal. tree_code refusal ≡ code) }
    ensures none { IfNone result (IsNoRefusal code) }
{
    match code {
        48 => Some(Refusal::TooLong),
        49 => Some(Refusal::TooDeep),
        50 => Some(Refusal::BadSnap),
        _ => None,
    }
}

/// What helps at the fault that has this number and this place, if something does.
fn advice_on<'a>(
    alloc: Global,
    text: &'a str,
    code: u32,
    place: usize,
) -> Result<Option<Advice<'a>>, AllocError>
    ensures { IfOk result (λ found. IsAdviceOn code found) }
{
    match (text_fault(code, place), refusal_of(code)) {
        (Some(fault), _) => advise(alloc, text, fault),
        (None, Some(refusal)) => Ok(advise_refusal(refusal)),
        (None, None) => Ok(None),
    }
}

/// The sentence of an advice, and on a line below it the way over libpcap's compiler, if it has
/// one.
fn hint_of(alloc: Global, advice: Advice<'_>) -> Result<String, AllocError>
    ensures { IfOk result (λ line. Says advice.entry (string_bytes line)) }
{
    match advice.by_libpcap() {
        Some(way) => format!(in alloc; "{advice}\n{way}"),
        None => format!(in alloc; "{advice}"),
    }
}

/// Whether something helps at a fault with this number.
fn has_hint(code: u32) -> bool
    ensures { result ≡ has_hint code }
{
    (32 <= code && code <= 43) || code == 48 || code == 49
}

/// What helps at a fault, as a text; an empty one if there is no advice.
fn advice_text(alloc: Global, text: &str, code: u32, place: usize) -> Result<String, AllocError>
    ensures { IfOk result (λ line. IsSettled code (string_bytes line)) }
{
    match advice_on(alloc, text, code, place) {
        Ok(Some(advice)) => hint_of(alloc, advice),
        Ok(None) => Ok(String::new(alloc)),
        Err(AllocError) => Err(AllocError),
    }
}

/// What helps at a fault, as a text that is empty exactly if nothing helps at faults with this
/// number.
fn hint_on(alloc: Global, text: &str, code: u32, place: usize) -> Result<String, AllocError>
    ensures { IfOk result (λ line. IsHintOn code (string_bytes line)) }
{
    if !has_hint(code) {
        return Ok(String::new(alloc));
    }
    let line = advice_text(alloc, text, code, place)?;
    if line.is_empty() {
        format!(in alloc; "{EXPLAINED}")
    } else {
        Ok(line)
    }
}

/// What helps at a fault, or that the bytes are no text.
fn hint(alloc: Global, text: &[u8], code: u32, place: usize) -> Result<String, Failure>
    ensures ok { IfOk result (λ line. IsHinted text.now code (Result.Ok (string_bytes line))) }
    ensures err { IfErr result (λ failure. IsHinted text.now code (Result.Err failure)) }
{
    let text = match text_of(text) {
        Ok(text) => text,
        Err(failure) => return Err(failure),
    };
    match hint_on(alloc, text, code, place) {
        Ok(line) => Ok(line),
        Err(AllocError) => Err(Failure::NoMemory),
    }
}

/// Writes what helps to fix an expression that is refused for a fault with this number, at this
/// place; nothing for a number of no such fault.
#[unsafe(no_mangle)]
pub extern "C" fn bpftap_hint(
    alloc: Global,
    text: &[u8],
    fault: u32,
    place: usize,
    to: &mut [u8],
) -> BpftapResult
    ensures { (made : Result (List ℕ) Failure) × IsHinted text.now fault made × DeliversText made to.old to.new result }
{
    match hint(alloc, text, fault, place) {
        Ok(line) => put_text(line.as_bytes(), to),
        Err(failure) => failed(failure),
    }
}
