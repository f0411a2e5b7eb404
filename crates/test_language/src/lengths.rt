//! Expressions of every length are read if memory is there, which no contract can say.

use filterlang::{MAX_TEXT, lex, parse};
use std::process::Abort;

/// How many times `||ip` has room after a word.
const MAX_JOINED: usize = 2047;

// A text has tokens, and is an expression.
fn is_read(rt: &(impl Abort + AllocGlobal), text: &str) {
    assert!(rt; lex(rt.alloc(), text).is_ok(), "{} bytes", text.len());
    assert!(rt; parse(rt.alloc(), text).is_ok(), "{} bytes", text.len());
}

#[test]
fn a_text_of_each_length_is_read(rt: HostRuntime) {
    let mut text = String::new(rt.alloc());
    for _ in 0..MAX_TEXT + 1 {
        is_read(&rt, text.as_str());
        text.push(' ').expect(&rt, "memory");
    }
    assert!(rt; parse(rt.alloc(), text.as_str()).is_err());
}

// A primitive, and as many more after `or` as the text has room for.
fn read_each_chain(rt: &(impl Abort + AllocGlobal), first: &str) {
    let mut text = String::new(rt.alloc());
    text.push_str(first).expect(rt, "memory");
    for _ in 0..MAX_JOINED + 1 {
        is_read(rt, text.as_str());
        text.push_str("||ip").expect(rt, "memory");
    }
}

#[test]
fn each_number_of_tokens_is_read(rt: HostRuntime) {
    // Odd numbers, and even ones.
    read_each_chain(&rt, "ip");
    read_each_chain(&rt, "!ip");
}
