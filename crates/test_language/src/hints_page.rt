//! The caller that the page of `filter_hints` shows, crates/filter_hints/README.md.

use filter_hints::advise;
use filterlang::parse;
use std::alloc::{AllocError, Global};

/// What a log says of a configuration's expression that is refused: its fault, and what helps.
fn complaint(alloc: Global, text: &str) -> Result<Option<String>, AllocError> {
    let Err(fault) = parse(alloc, text) else {
        return Ok(None);
    };
    match advise(alloc, text, fault)? {
        Some(advice) => Ok(Some(format!(in alloc; "{fault}: {advice}")?)),
        None => Err(AllocError),
    }
}

#[test]
fn a_word_is_suggested(rt: HostRuntime) {
    let alloc = rt.alloc();
    let line = complaint(alloc, "src prot 17").expect(&rt, "memory");
    let line = line.expect(&rt, "a fault");
    assert_eq!(rt; line.as_str(), "BadWord 4: did you mean `port`?");
}
