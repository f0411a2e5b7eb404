//! The caller that the page of `filter_explain` shows, crates/filter_explain/README.md.

use crate::same::same;
use bpfvm::NoMemory;
use filter_explain::{AbortCause, explain};
use filterlang::{Expr, parse};
use std::alloc::Global;
use std::process::Abort;

/// The first byte of a packet that an expression wants and that was not captured, where it aborts for that.
pub fn wanted(
    alloc: Global,
    expr: &Expr,
    packet: &[u8],
    wire: u32,
) -> Result<Option<usize>, NoMemory> {
    let asked = explain(alloc, expr, packet, wire)?;
    match asked.last() {
        Some(last) => match last.cause {
            Some(AbortCause::NotCaptured(place)) => Ok(Some(place)),
            _ => Ok(None),
        },
        None => Ok(None),
    }
}

/// The byte of a frame of IPv4, of which 14 were captured, that an expression wants.
fn wanted_by(rt: &(impl Abort + AllocGlobal), expr: Expr) -> Option<usize> {
    let frame = [0, 0, 0, 0, 0, 0, 0, 0, 0, 0, 0, 0, 8, 0];
    wanted(rt.alloc(), &expr, &frame, 60).expect(rt, "there is memory")
}

#[test]
fn the_byte_that_was_needed_is_named(rt: HostRuntime) {
    let expr = parse(rt.alloc(), "arp or not tcp").expect(&rt, "an expression");
    same(&rt, wanted_by(&rt, expr), Some(23));
}
