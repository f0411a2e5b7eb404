//! What the decision diagrams of two filters show.

ghost use Rattle.std.specs.Prelude.{◌≡◌, ℕ, ◌<◌, Bool, length, Some, true, IsTrue, IfOk, IfSome};
ghost use Rattle.filter_meaning.specs.Meaning.{Packet, Test};
ghost use Rattle.filter_bdd.specs.declared.answer.Answer.TheVariants.{Final};
ghost use Rattle.filter_bdd.specs.Diagrams.{answer};
ghost use Rattle.filter_symbols.specs.Symbols.{SaysOf, Extends};
ghost use Rattle.filter_same.specs.Filters.{filter_test};
ghost use Rattle.filter_same.specs.Findings.{ClaimOf, ClaimsOf, Claims, HoldsUnlessNo, AcceptsAlike, AreNotApart};

use crate::cut::{cut, cut_header};
use crate::filters::Filter;
use crate::ordering::order_of;
use crate::witness::{Extent, Witness, witness_of};
use filter_bdd::{Answer, BitOrder, Budget, Operation, Stop};
use filter_diagrams::{Builder, Refusal};
use std::alloc::Global;

/// What is so of two filters. Each claim is so if the one before it is.
#[derive(Clone, Copy, Debug, PartialEq, Eq)]
pub(crate) enum Claim {
    /// They accept the same packets.
    Same,
    /// The same of packets of which no more was captured than was on the wire.
    SameAsCaptured,
    /// No packet of those gets Yes from one and No from the other.
    NeverApart,
    /// Nothing is claimed.
    Nothing,
}

/// What is found of two filters: what is so of them, and a packet that perhaps shows that no more
/// is.
#[derive(Drop)]
pub(crate) struct Finding {
    pub claim: Claim,
    pub witness: Option<Witness>,
}

impl Claim {
    /// The one of two claims that says less.
    fn weaker(self, other: Claim) -> Claim
        ensures first { (t u : Test) → (p : Packet) → ClaimOf t u self p → ClaimOf t u result p }
        ensures second { (t u : Test) → (p : Packet) → ClaimOf t u other p → ClaimOf t u result p }
    {
        match (self, other) {
            (Claim::Nothing, _) => self,
            (_, Claim::Nothing) => other,
            (Claim::NeverApart, _) => self,
            (_, Claim::NeverApart) => other,
            (Claim::SameAsCaptured, _) => self,
            (Claim::Same, _) => other,
        }
    }
}

/// Whether there is a packet, and no more of it was captured than was on the wire.
fn is_captured(seen: &Option<Witness>) -> bool {
    match seen {
        Some(witness) => witness.is_captured(),
        None => false,
    }
}

/// Whether a node says Yes of everything.
fn is_always(builder: &Builder, place: u32) -> bool
    requires { place < length builder.now.symbols.words.diagrams }
    ensures { IsTrue result → (v : ℕ → Bool) → answer builder.now.symbols.words.diagrams v place ≡ Final 0 true }
{
    builder
        .symbols
        .words
        .diagrams
        .is(place, Answer::Final(0, true))
}

/// A node that says No if one of two nodes accepts a packet and the other does not.
#[tactic(auto, using(filter_diagrams::proofs::Builders::extends_by))]
fn agreement(builder: &mut Builder, left: u32, right: u32) -> Result<u32, Stop>
    requires left { left < length builder.old.symbols.words.diagrams }
    requires right { right < length builder.old.symbols.words.diagrams }
    ensures says { IfOk result (λ i. (t u : Test) → SaysOf builder.old.symbols t left → SaysOf builder.old.symbols u right → HoldsUnlessNo builder.new.symbols i (AcceptsAlike t u)) }
    ensures inside { IfOk result (λ i. i < length builder.new.symbols.words.diagrams) }
    ensures extends { Extends builder.old.symbols builder.new.symbols }
{
    builder
        .symbols
        .words
        .diagrams
        .apply(Operation::Agree, left, right)
}

/// A node that says No if one of two nodes says Yes of a packet and the other No.
#[tactic(auto, using(filter_diagrams::proofs::Builders::extends_by))]
fn clash(builder: &mut Builder, left: u32, right: u32) -> Result<u32, Stop>
    requires left { left < length builder.old.symbols.words.diagrams }
    requires right { right < length builder.old.symbols.words.diagrams }
    ensures says { IfOk result (λ i. (t u : Test) → SaysOf builder.old.symbols t left → SaysOf builder.old.symbols u right → HoldsUnlessNo builder.new.symbols i (AreNotApart t u)) }
    ensures inside { IfOk result (λ i. i < length builder.new.symbols.words.diagrams) }
    ensures extends { Extends builder.old.symbols builder.new.symbols }
{
    builder
        .symbols
        .words
        .diagrams
        .apply(Operation::Apart, left, right)
}

/// What is claimed of packets of which no more was captured than was on the wire, by a node of what
/// both accept and one of where they clash.
#[tactic(auto, using(filter_diagrams::proofs::Builders::extends_more, filter_diagrams::proofs::Builders::extends_same, filter_diagrams::proofs::Builders::inside_extended))]
#[inline(never)]
fn find_captured(
    builder: &mut Builder,
    alloc: Global,
    agree: u32,
    clash: u32,
) -> Result<Finding, Stop>
    requires header { IfSome builder.old.symbols.header (λ n. n < 16) }
    requires agree { agree < length builder.old.symbols.words.diagrams }
    requires clash { clash < length builder.old.symbols.words.diagrams }
    ensures { IfOk result (λ found. (t u : Test) → HoldsUnlessNo builder.old.symbols agree (AcceptsAlike t u) → HoldsUnlessNo builder.old.symbols clash (AreNotApart t u)
        → ClaimsOf builder.old.symbols.header t u found.claim) }
{
    let short = cut(builder, agree)?;
    if is_always(builder, short) {
        return Ok(Finding {
            claim: Claim::SameAsCaptured,
            witness: None,
        });
    }
    let apart = cut(builder, clash)?;
    if is_always(builder, apart) {
        return Ok(Finding {
            claim: Claim::NeverApart,
            witness: witness_of(builder, alloc, short, Extent::Least)?,
        });
    }
    Ok(Finding {
        claim: Claim::Nothing,
        witness: witness_of(builder, alloc, apart, Extent::Whole)?,
    })
}

/// Compares two filters on the packets of the header length, by the nodes that they are. A packet
/// that shows a difference is looked for before what cannot be captured is cut away.
#[tactic(auto, using(filter_diagrams::proofs::Builders::extends_more, filter_diagrams::proofs::Builders::extends_same, filter_diagrams::proofs::Builders::inside_extended))]
fn find_nodes(builder: &mut Builder, alloc: Global, left: u32, right: u32) -> Result<Finding, Stop>
    requires header { IfSome builder.old.symbols.header (λ n. n < 16) }
    requires left { left < length builder.old.symbols.words.diagrams }
    requires right { right < length builder.old.symbols.words.diagrams }
    ensures { IfOk result (λ found. (t u : Test) → SaysOf builder.old.symbols t left → SaysOf builder.old.symbols u right → ClaimsOf builder.old.symbols.header t u found.claim) }
{
    let all = agreement(builder, left, right)?;
    if is_always(builder, all) {
        return Ok(Finding {
            claim: Claim::Same,
            witness: None,
        });
    }
    let agree = cut_header(builder, all)?;
    if is_always(builder, agree) {
        return Ok(Finding {
            claim: Claim::Same,
            witness: None,
        });
    }
    let apart = clash(builder, left, right)?;
    let clash = cut_header(builder, apart)?;
    let seen = witness_of(builder, alloc, clash, Extent::Whole)?;
    if is_captured(&seen) {
        return Ok(Finding {
            claim: Claim::Nothing,
            witness: seen,
        });
    }
    find_captured(builder, alloc, agree, clash)
}

/// Compares two filters on the packets of the header length.
#[inline(never)]
fn find_filters(
    builder: &mut Builder,
    alloc: Global,
    first: Filter<'_>,
    second: Filter<'_>,
) -> Result<Finding, Refusal>
    requires { IfSome builder.old.symbols.header (λ n. n < 16) }
    ensures { IfOk result (λ found. ClaimsOf builder.old.symbols.header (filter_test first.entry) (filter_test second.entry) found.claim) }
{
    let left = first.node(builder, alloc)?;
    let right = second.node(builder, alloc)?;
    let found = find_nodes(builder, alloc, left, right)?;
    Ok(found)
}

/// Compares two filters on the packets of one header length, or on all if none is given and none
/// is asked for. The builder begins anew with what is left of its budget.
fn find(
    builder: &mut Builder,
    alloc: Global,
    header: Option<u32>,
    first: Filter<'_>,
    second: Filter<'_>,
) -> Result<Finding, Refusal>
    requires { IfSome header (λ n. n < 16) }
    ensures { IfOk result (λ found. ClaimsOf header (filter_test first.entry) (filter_test second.entry) found.claim) }
{
    let order = order_of(alloc, header, first, second)?;
    builder.restart(header, order);
    match find_filters(builder, alloc, first, second) {
        Ok(found) => Ok(found),
        Err(refusal) => Err(refusal.of(builder)),
    }
}

/// The same of all header lengths, one after the other, the usual one first.
fn find_each(
    builder: &mut Builder,
    alloc: Global,
    first: Filter<'_>,
    second: Filter<'_>,
) -> Result<Finding, Refusal>
    ensures { IfOk result (λ found. Claims (filter_test first.entry) (filter_test second.entry) found.claim) }
{
    let mut least = Claim::Same;
    let mut shown = None;
    for place in 0..16 {
        let header = Some((place + 5) % 16);
        let found = find(builder, alloc, header, first, second)?;
        let Finding { claim, witness } = found;
        if claim == Claim::Nothing {
            return Ok(Finding {
                claim: Claim::Nothing,
                witness,
            });
        }
        least = least.weaker(claim);
        if shown.is_none() {
            shown = witness;
        }
    }
    Ok(Finding {
        claim: least,
        witness: shown,
    })
}

/// The same of all packets, within one budget. If a filter asks for the header length, nothing is
/// made before it is given. A program may ask for it only as it is walked.
#[tactic(auto, using(crate::proofs::Ends::no_header))]
pub(crate) fn find_all(
    alloc: Global,
    first: Filter<'_>,
    second: Filter<'_>,
    budget: Budget,
) -> Result<Finding, Refusal>
    ensures { IfOk result (λ found. Claims (filter_test first.entry) (filter_test second.entry) found.claim) }
{
    let mut builder = Builder::new(alloc, None, budget, BitOrder::natural(alloc));
    if first.asks_header() || second.asks_header() {
        return find_each(&mut builder, alloc, first, second);
    }
    match find(&mut builder, alloc, None, first, second) {
        Err(Refusal::Header) => find_each(&mut builder, alloc, first, second),
        Err(other) => Err(other),
        Ok(found) => Ok(found),
    }
}
