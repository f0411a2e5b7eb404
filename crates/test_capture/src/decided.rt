//! The caller of the page of `filter_explain`.

use crate::same::same;
use filter_explain::put_decision;
use filterlang::{Fault, parse};
use std::alloc::Global;

/// What an expression answers to a frame that was captured whole, and why.
pub fn verdict_text(alloc: Global, expression: &str, frame: &[u8]) -> Result<String, Fault> {
    let expr = parse(alloc, expression)?;
    let mut line = String::new(alloc);
    let wire = u32::try_from(frame.len()).unwrap_or(u32::MAX);
    put_decision(&mut line, &expr, frame, wire)?;
    Ok(line)
}

#[test]
fn what_decides_follows_the_answer(rt: HostRuntime) {
    let alloc = rt.alloc();
    let text = verdict_text(alloc, "arp and not (ether[20] = 1)", &[0; 14]).expect(
        &rt,
        "an expression",
    );
    same(&rt, text.as_str(), "No arp");
}
