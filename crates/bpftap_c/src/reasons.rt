//! Why an expression answers as it does.

ghost use Rattle.std.specs.Prelude.{◌≡◌, IfErr, IfOk, Result, List, ℕ};
ghost use Rattle.bpftap_c.specs.declared.outcome.BpftapResult.{BpftapResult};
ghost use Rattle.bpftap_c.specs.declared.outcome.Failure.{Failure};
ghost use Rattle.bpftap_c.specs.Memory.{DeliversText};
ghost use Rattle.bpftap_c.specs.Reasons.{verdict_code, Decides, IsReason};

use crate::filters::expression_of;
use crate::memory::put_text;
use crate::outcome::{BpftapResult, Failure, failed};
use filter_explain::put_decision;
use filter_meaning::Verdict;
use std::alloc::Global;

/// What `bpftap_why` returns.
#[repr(C)]
#[derive(Clone, Copy, Debug, PartialEq, Eq)]
pub struct BpftapReason {
    /// 0, or the number of a fault.
    pub fault: u32,
    /// 0 No, 1 Yes, 2 Abort.
    pub verdict: u32,
    /// How many bytes the text has.
    pub size: usize,
    /// Where the fault is.
    pub place: usize,
}

/// An answer, and the text of it.
#[derive(Drop)]
struct Decision {
    verdict: Verdict,
    line: String,
}

/// What an expression answers to a packet and which part of it decides, or why it answers nothing.
fn explained(alloc: Global, text: &[u8], packet: &[u8], wire: u32) -> Result<Decision, Failure>
    ensures ok { IfOk result (λ d. Decides text.now packet.now wire (verdict_code d.verdict) (Result.Ok (Rattle.std.specs.Prelude.string_bytes d.line))) }
    ensures err { IfErr result (λ failure. Decides text.now packet.now wire 0 (Result.Err failure)) }
{
    let expr = match expression_of(alloc, text) {
        Ok(expr) => expr,
        Err(failure) => return Err(failure),
    };
    let mut line = String::new(alloc);
    match put_decision(&mut line, &expr, packet, wire) {
        Ok(verdict) => Ok(Decision { verdict, line }),
        Err(_) => Err(Failure::NoMemory),
    }
}

fn verdict_code(verdict: Verdict) -> u32
    ensures { result ≡ verdict_code verdict }
{
    match verdict {
        Verdict::No => 0,
        Verdict::Yes => 1,
        Verdict::Abort => 2,
    }
}

/// The result of a call, and the verdict beside it.
fn reason(told: BpftapResult, verdict: u32) -> BpftapReason
    ensures { IsReason told verdict result }
{
    BpftapReason {
        fault: told.fault,
        verdict,
        size: told.size,
        place: told.place,
    }
}

/// Says what an expression answers to a packet, and writes the answer and the primitive or relation
/// that decides.
#[unsafe(no_mangle)]
pub extern "C" fn bpftap_why(
    alloc: Global,
    text: &[u8],
    packet: &[u8],
    wire: u32,
    to: &mut [u8],
) -> BpftapReason
    ensures { (made : Result (List ℕ) Failure) × (told : BpftapResult) × (verdict : ℕ)
        × Decides text.now packet.now wire verdict made × DeliversText made to.old to.new told × IsReason told verdict result }
{
    match explained(alloc, text, packet, wire) {
        Ok(decision) => {
            let told = put_text(decision.line.as_bytes(), to);
            reason(told, verdict_code(decision.verdict))
        }
        Err(failure) => reason(failed(failure), 0),
    }
}
