//! The caller that the page of `filter_print` shows, crates/filter_print/README.md.

use filter_print::Canonical;
use filterlang::{Fault, parse};
use std::alloc::Global;

/// A configuration's expression as it is read: what it inherits is written out.
fn as_read(alloc: Global, line: &str) -> Result<String, Fault> {
    let expr = parse(alloc, line)?;
    Ok(Canonical(&expr).to_string(alloc)?)
}

#[test]
fn what_is_inherited_is_written_out(rt: HostRuntime) {
    let alloc = rt.alloc();
    let shown = as_read(alloc, "tcp port 80 or 8080").expect(&rt, "an expression");
    assert_eq!(rt; shown.as_str(), "tcp port 80 or tcp port 8080");
    assert_eq!(rt;
        as_read(alloc, "tcp and 80").err(),
        Some(Fault::NoQualifier(8))
    );
}
