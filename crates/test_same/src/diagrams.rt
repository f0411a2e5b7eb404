//! The caller that the page of `filter_diagrams` shows, crates/filter_diagrams/README.md. The
//! answers are written down by hand, from the tables of docs/LANGUAGE.md.

use filter_bdd::{Answer, BitOrder, Budget};
use filter_diagrams::{Builder, Refusal};
use filter_tree::Expr;
use filterlang::parse;
use std::alloc::Global;
use std::process::Abort;

/// Whether an expression is found to accept every packet whose IPv4 header has five words.
pub fn accepts_all(alloc: Global, expr: &Expr) -> Result<bool, Refusal> {
    let budget = Budget {
        nodes: 100_000,
        steps: 200_000,
    };
    let mut builder = Builder::new(alloc, Some(5), budget, BitOrder::natural(alloc));
    let place = builder.tree(expr)?;
    let diagrams = &builder.symbols.words.diagrams;
    Ok(diagrams.is(place, Answer::Final(0, true)))
}

/// Whether a text is found to accept every such packet.
fn accepts(rt: &(impl Abort + AllocGlobal), text: &str) -> Result<bool, Refusal> {
    let expr = parse(rt.alloc(), text).expect(rt, "an expression");
    accepts_all(rt.alloc(), &expr)
}

#[test]
fn what_accepts_every_packet_is_one_leaf(rt: HostRuntime) {
    assert_eq!(&rt; accepts(&rt, "less 100 or greater 100"), Ok(true));
    assert_eq!(&rt; accepts(&rt, "less 100 or greater 102"), Ok(false));
}
