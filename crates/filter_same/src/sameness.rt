//! What is decided of two filters.

ghost use Rattle.std.specs.Prelude.{◌≡◌, Bool, ◌≤◌, ◌⊎◌, length, IfOk, IsTrue};
ghost use Rattle.filter_tree.specs.Trees.{tree_of};
ghost use Rattle.filter_meaning.specs.Meaning.{Packet, Test};
ghost use Rattle.filter_same.specs.Same.{AreNeverApart, Holds, HoldsOf, packet};
ghost use Rattle.filter_same.specs.Filters.{HoldsOfFilters, filter_test};
ghost use Rattle.filter_same.specs.Findings.{Claims};

use crate::depth::{CALCULATED, LOOKED_AT, Limits};
use crate::filters::Filter;
use crate::find::{Claim, Finding, find_all};
use crate::heavy::Heavy;
use crate::witness::Witness;
use bpfvm::NoMemory;
use filter_bdd::Budget;
use filter_diagrams::Refusal;
use filter_meaning::Verdict;
use filter_tree::Expr;
use std::alloc::Global;

/// Why two filters are not decided.
#[derive(Clone, Copy, Debug, PartialEq, Eq)]
pub enum Cause {
    /// Their diagrams differ, and no packet was found that shows how the filters do.
    Graphs,
    /// The budget's nodes are spent, and no filter has a product, quotient or load as below.
    Nodes,
    /// The budget's steps are spent, and no filter has a product, quotient or load as below.
    Steps,
    /// The budget is spent, and a filter has a product of two numbers that are no constants.
    Product,
    /// The budget is spent, and a filter has a quotient or a remainder by a number that is no
    /// constant.
    Quotient,
    /// The budget is spent, and a filter has bytes at an offset that is no constant.
    Load,
    /// A byte may be asked for that is 2^17 bytes or more from the first one.
    Far,
    /// A program is walked at too many places, each with other numbers.
    Places,
    /// An expression has more levels than are compared.
    Levels,
}

/// What is known of two filters.
#[derive(Debug, PartialEq, Eq, Drop)]
pub enum Sameness {
    /// They accept the same packets, of every captured length and every length on the wire.
    Same,
    /// They accept the same packets of those that are captured at most as far as they were on the
    /// wire.
    SameAsCaptured,
    /// One of them accepts this packet, on which the other aborts. No packet that is captured at
    /// most as far as it was on the wire gets Yes from one and No from the other.
    Short(Witness),
    /// This packet gets Yes from one of them and No from the other. It is captured at most as far
    /// as it was on the wire.
    Differ(Witness),
    /// Nothing is claimed.
    NotDecided(Cause),
}

/// Whether one verdict is Yes and the other No.
fn are_apart(first: Verdict, second: Verdict) -> bool
    ensures { IsTrue result → ((first ≡ Verdict.Yes) × (second ≡ Verdict.No)) ⊎ ((first ≡ Verdict.No) × (second ≡ Verdict.Yes)) }
{
    match second {
        Verdict::Yes => first == Verdict::No,
        Verdict::No => first == Verdict::Yes,
        Verdict::Abort => false,
    }
}

/// Whether one verdict is Yes and the other Abort.
fn is_short(first: Verdict, second: Verdict) -> bool
    ensures { IsTrue result → ((first ≡ Verdict.Yes) × (second ≡ Verdict.Abort)) ⊎ ((first ≡ Verdict.Abort) × (second ≡ Verdict.Yes)) }
{
    match second {
        Verdict::Yes => first == Verdict::Abort,
        Verdict::No => false,
        Verdict::Abort => first == Verdict::Yes,
    }
}

/// How many steps are taken in all, of every header length, for each node that a diagram may have.
const STEPS: u64 = 2;

/// Whether each of two filters is within limits.
fn are_shallow(first: Filter<'_>, second: Filter<'_>, limits: Limits) -> bool {
    first.is_shallow(limits) && second.is_shallow(limits)
}

/// What two expressions do on every packet there can be. Each answer but [`Sameness::NotDecided`]
/// is so.
///
/// `budget` is how many nodes the diagrams of one header length may have, and half of the steps
/// that are taken in all. `NoMemory` if memory is refused.
pub fn decide(
    alloc: Global,
    first: &Expr,
    second: &Expr,
    budget: usize,
) -> Result<Sameness, NoMemory>
    ensures { IfOk result (Holds (tree_of first.now) (tree_of second.now)) }
{
    decide_filters(
        alloc,
        Filter::Expression(first),
        Filter::Expression(second),
        budget,
    )
}

/// What two filters do on every packet there can be. Each answer but [`Sameness::NotDecided`] is
/// so. A program accepts a packet if it keeps any bytes of it, and aborts if it reads past the
/// captured bytes or divides by 0. Filters with the same tree, or the same instructions, are the
/// same, whatever they calculate.
///
/// `budget` is how many nodes the diagrams of one header length may have, and half of the steps
/// that are taken in all; other work counts as steps too, beyond a quarter of their time. No byte
/// is looked at that is 2^17 bytes or more from the first one, and at most 32,768 places of a
/// program are walked, or 8,192 for each header length, each of which counts as 60 nodes meanwhile.
/// Expressions have at most 1,000 levels, of which one of a value counts as eight, and values at
/// most 64; the same tree twice may have more. `NoMemory` if memory is refused.
pub fn decide_filters(
    alloc: Global,
    first: Filter<'_>,
    second: Filter<'_>,
    budget: usize,
) -> Result<Sameness, NoMemory>
    ensures { IfOk result (HoldsOfFilters first.entry second.entry) }
{
    if are_shallow(first, second, LOOKED_AT) && first.is_same(second) {
        return Ok(Sameness::Same);
    }
    if !are_shallow(first, second, CALCULATED) {
        return Ok(Sameness::NotDecided(Cause::Levels));
    }
    let whole = Budget {
        nodes: budget,
        steps: STEPS.saturating_mul(budget as u64),
    };
    match find_all(alloc, first, second, whole) {
        Ok(found) => Ok(sameness_of(first, second, found)),
        Err(Refusal::Memory) => Err(NoMemory),
        Err(refusal) => Ok(Sameness::NotDecided(cause_of(refusal, first, second))),
    }
}

/// Why two filters are not decided, if they were refused.
fn cause_of(refusal: Refusal, first: Filter<'_>, second: Filter<'_>) -> Cause {
    let heavy = first.heavy().or(second.heavy());
    let far = first.looks_far() || second.looks_far();
    match (refusal, heavy) {
        (Refusal::Places, _) => Cause::Places,
        (Refusal::Budget, _) if far => Cause::Far,
        (_, Some(Heavy::Product)) => Cause::Product,
        (_, Some(Heavy::Quotient)) => Cause::Quotient,
        (_, Some(Heavy::Load)) => Cause::Load,
        (Refusal::Nodes, None) => Cause::Nodes,
        (_, None) => Cause::Steps,
    }
}

/// What is known by a finding, once both filters have judged its packet.
fn sameness_of(first: Filter<'_>, second: Filter<'_>, found: Finding) -> Sameness
    requires { Claims (filter_test first) (filter_test second) found.claim }
    ensures { HoldsOfFilters first.entry second.entry result }
{
    let Finding { claim, witness } = found;
    match (claim, witness) {
        (Claim::Same, _) => Sameness::Same,
        (Claim::SameAsCaptured, _) => Sameness::SameAsCaptured,
        (Claim::NeverApart, Some(witness)) => {
            let one = first.verdict(&witness);
            let other = second.verdict(&witness);
            short(one, other, witness)
        }
        (Claim::Nothing, Some(witness)) => {
            let one = first.verdict(&witness);
            let other = second.verdict(&witness);
            apart(one, other, witness)
        }
        (_, None) => Sameness::NotDecided(Cause::Graphs),
    }
}

/// What a packet shows of two filters that are never apart, by their verdicts.
fn short(first: Verdict, second: Verdict, witness: Witness) -> Sameness
    ensures { (f g : Packet → Bool) → (t u : Test) → AreNeverApart t u → first ≡ t (packet witness) → second ≡ u (packet witness) → HoldsOf f g t u result }
{
    if witness.is_captured() && is_short(first, second) {
        Sameness::Short(witness)
    } else {
        Sameness::NotDecided(Cause::Graphs)
    }
}

/// What a packet shows of two filters, by their verdicts.
fn apart(first: Verdict, second: Verdict, witness: Witness) -> Sameness
    ensures { (f g : Packet → Bool) → (t u : Test) → first ≡ t (packet witness) → second ≡ u (packet witness) → HoldsOf f g t u result }
{
    if witness.is_captured() && are_apart(first, second) {
        Sameness::Differ(witness)
    } else {
        Sameness::NotDecided(Cause::Graphs)
    }
}
