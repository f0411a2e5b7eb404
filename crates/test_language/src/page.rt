//! The caller that the page of `filterlang` shows, crates/filterlang/README.md.

use filterlang::{Expr, Fault, parse};
use std::alloc::Global;

/// The expression of a configuration's line, without the comment after `#`.
fn expression(alloc: Global, line: &str) -> Result<Expr, Fault> {
    match line.split_once('#') {
        Some((text, _comment)) => parse(alloc, text),
        None => parse(alloc, line),
    }
}

#[test]
fn comments_are_no_part_of_an_expression(rt: HostRuntime) {
    let alloc = rt.alloc();
    let read = expression(alloc, "port 80 or 443 # the web").expect(&rt, "an expression");
    let wanted = parse(alloc, "port 80 or port 443").expect(&rt, "an expression");
    assert!(rt; read == wanted);
    assert_eq!(rt;
        expression(alloc, "tcp and 80").err(),
        Some(Fault::NoQualifier(8))
    );
}
