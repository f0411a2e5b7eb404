//! Two expressions, decided for every packet.

ghost use Rattle.std.specs.Prelude.{◌≡◌, IfErr, IfOk};
ghost use Rattle.bpftap_c.specs.Comparisons.{answer_code, cause_code, witness_of, wire_of, comparison_of, no_comparison, IsCompared, IsUncompared, PutsComparison};

use crate::filters::expression_of;
use crate::memory::put_bytes;
use crate::outcome::{BpftapResult, Failure, failed};
use bpfvm::NoMemory;
use filter_same::{Cause, Sameness, decide};
use std::alloc::Global;

/// What `bpftap_compare` returns.
#[repr(C)]
#[derive(Clone, Copy, Debug, PartialEq, Eq)]
pub struct BpftapComparison {
    /// 0, or the number of a fault.
    pub fault: u32,
    /// Which expression the fault is of: 0 the first, 1 the second.
    pub number: u32,
    /// 0 Same, 1 SameAsCaptured, 2 Short, 3 Differ, 4 NotDecided.
    pub answer: u32,
    /// Why nothing is claimed: 1 Graphs, 2 Budget, 4 Product, 5 Quotient, 6 Load, 7 Far, 8 Levels;
    /// 0 with any other answer. Earlier versions had 3.
    pub cause: u32,
    /// The length on the wire of the packet that shows the answer.
    pub wire: u32,
    /// How many bytes that packet has.
    pub size: usize,
    /// Where the fault is.
    pub place: usize,
}

/// Why two expressions are not compared.
#[derive(Clone, Copy, Debug)]
struct Refused {
    number: u32,
    failure: Failure,
}

/// The number for an answer, which stays from version to version.
fn answer_code(sameness: &Sameness) -> u32
    ensures { result ≡ answer_code sameness.now }
{
    match sameness {
        Sameness::Same => 0,
        Sameness::SameAsCaptured => 1,
        Sameness::Short(_) => 2,
        Sameness::Differ(_) => 3,
        Sameness::NotDecided(_) => 4,
    }
}

/// The number of the cause for which nothing is claimed.
fn cause_code(sameness: &Sameness) -> u32
    ensures { result ≡ cause_code sameness.now }
{
    match sameness {
        Sameness::NotDecided(Cause::Graphs) => 1,
        Sameness::NotDecided(Cause::Nodes) => 2,
        Sameness::NotDecided(Cause::Steps) => 2,
        Sameness::NotDecided(Cause::Places) => 2,
        Sameness::NotDecided(Cause::Product) => 4,
        Sameness::NotDecided(Cause::Quotient) => 5,
        Sameness::NotDecided(Cause::Load) => 6,
        Sameness::NotDecided(Cause::Far) => 7,
        Sameness::NotDecided(Cause::Levels) => 8,
        _ => 0,
    }
}

/// The bytes of the packet that shows the answer.
fn witness_of(sameness: &Sameness) -> &[u8]
    ensures { result.now ≡ witness_of sameness.now }
{
    match sameness {
        Sameness::Short(witness) | Sameness::Differ(witness) => witness.bytes.as_slice(),
        _ => &[],
    }
}

/// The length on the wire of the packet that shows the answer.
fn wire_of(sameness: &Sameness) -> u32
    ensures { result ≡ wire_of sameness.now }
{
    match sameness {
        Sameness::Short(witness) | Sameness::Differ(witness) => witness.wire,
        _ => 0,
    }
}

/// What is decided of two expressions.
fn compared(alloc: Global, first: &[u8], second: &[u8], budget: usize) -> Result<Sameness, Refused>
    ensures ok { IfOk result (IsCompared first.now second.now) }
    ensures err { IfErr result (λ refused. IsUncompared first.now second.now refused.number refused.failure) }
{
    let one = match expression_of(alloc, first) {
        Ok(expr) => expr,
        Err(failure) => return Err(Refused { number: 0, failure }),
    };
    let other = match expression_of(alloc, second) {
        Ok(expr) => expr,
        Err(failure) => return Err(Refused { number: 1, failure }),
    };
    match decide(alloc, &one, &other, budget) {
        Ok(sameness) => Ok(sameness),
        Err(NoMemory) => Err(Refused {
            number: 0,
            failure: Failure::NoMemory,
        }),
    }
}

/// The result of a call that put the packet which shows this answer.
fn comparison_of(put: BpftapResult, sameness: &Sameness) -> BpftapComparison
    ensures { result ≡ comparison_of put sameness.now }
{
    BpftapComparison {
        fault: put.fault,
        number: 0,
        answer: answer_code(sameness),
        cause: cause_code(sameness),
        wire: wire_of(sameness),
        size: put.size,
        place: put.place,
    }
}

/// The result of a call that decides nothing.
fn no_comparison(refused: Refused) -> BpftapComparison
    ensures { result ≡ no_comparison refused.number refused.failure }
{
    let result = failed(refused.failure);
    BpftapComparison {
        fault: result.fault,
        number: refused.number,
        answer: 4,
        cause: 0,
        wire: 0,
        size: result.size,
        place: result.place,
    }
}

/// Decides whether two expressions accept the same packets, of all that there can be, and puts a
/// packet that shows a difference into the caller's memory. `budget` is how many nodes the diagrams
/// of one header length may have, and half of the steps that are taken in all.
#[unsafe(no_mangle)]
pub extern "C" fn bpftap_compare(
    alloc: Global,
    first: &[u8],
    second: &[u8],
    budget: usize,
    to: &mut [u8],
) -> BpftapComparison
    ensures { PutsComparison first.now second.now to.old to.new result }
{
    match compared(alloc, first, second, budget) {
        Ok(sameness) => {
            let put = put_bytes(witness_of(&sameness), to);
            comparison_of(put, &sameness)
        }
        Err(refused) => no_comparison(refused),
    }
}
