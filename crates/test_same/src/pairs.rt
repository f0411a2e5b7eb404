//! The caller that the page of `filter_same` shows, crates/filter_same/README.md, and pairs of
//! expressions. The answers are written down by hand, from the tables of docs/LANGUAGE.md.

use crate::same::same;
use bpfvm::NoMemory;
use filter_same::{Cause, Sameness, decide};
use filterlang::{Expr, parse};
use std::alloc::Global;
use std::process::Abort;

/// Whether a filter may replace another one, as far as half a million nodes decide it.
pub fn may_replace(alloc: Global, filter: &Expr, other: &Expr) -> Result<bool, NoMemory> {
    Ok(decide(alloc, filter, other, 500_000)? == Sameness::Same)
}

/// The expression of a text.
fn expression(rt: &(impl Abort + AllocGlobal), text: &str) -> Expr {
    parse(rt.alloc(), text).expect(rt, "an expression")
}

/// Each of two texts may replace the other, or not.
fn replaces(rt: &(impl Abort + AllocGlobal), first: &str, second: &str, wanted: bool) {
    let (first, second) = (expression(rt, first), expression(rt, second));
    let found = may_replace(rt.alloc(), &first, &second).expect(rt, "there is memory");
    same(rt, found, wanted);
}

/// Pairs that accept the same packets, of every captured length.
static SAME: [(&str, &str); 16] = [
    ("tcp", "ip proto 6"),
    ("tcp", "ip and tcp"),
    ("tcp and ip", "tcp"),
    ("tcp or udp", "udp or tcp"),
    ("not not tcp", "tcp"),
    ("not (tcp or udp)", "not udp and not tcp"),
    ("not (tcp and less 100)", "not tcp or not less 100"),
    ("less 100", "not greater 101"),
    ("host 10.0.0.1", "src host 10.0.0.1 or dst host 10.0.0.1"),
    ("net 10.0.0.0/8 and tcp", "tcp and net 10.0.0.0/8"),
    (
        "src net 10.0.0.0/8",
        "src net 10.0.0.0/9 or src net 10.128.0.0/9",
    ),
    ("src port 80 or 443", "src port 443 or 80"),
    (
        "src portrange 80-90",
        "src portrange 80-85 or src portrange 86-90",
    ),
    ("dst port 53 and udp", "udp dst port 53"),
    ("ether broadcast", "ether dst ff:ff:ff:ff:ff:ff"),
    ("ether broadcast and ether multicast", "ether broadcast"),
];

/// Pairs that do not.
static OTHER: [(&str, &str); 11] = [
    ("tcp", "udp"),
    ("ip", "ip and greater 14"),
    ("port 80 or 443", "port 443 or 80"),
    ("net 10.0.0.0/8", "net 10.0.0.0/9"),
    ("src portrange 80-90", "src portrange 80-91"),
    ("less 100", "less 101"),
    ("not (tcp and less 100)", "not less 100 or not tcp"),
    ("host 10.0.0.1 or 10.0.0.2", "host 10.0.0.2 or 10.0.0.1"),
    ("src host 10.0.0.1", "src host 10.0.0.2"),
    ("ether multicast", "ether broadcast"),
    ("tcp", "tcp and ip[8] > 1"),
];

#[test]
fn what_accepts_the_same_is_the_same(rt: HostRuntime) {
    for (first, second) in SAME.iter() {
        replaces(&rt, first, second, true);
    }
}

#[test]
fn what_does_not_is_never_called_the_same(rt: HostRuntime) {
    for (first, second) in OTHER.iter() {
        replaces(&rt, first, second, false);
    }
}

/// What is known of two texts, within a budget.
fn decided_of(
    rt: &(impl Abort + AllocGlobal),
    first: &str,
    second: &str,
    budget: usize,
) -> Sameness {
    let (first, second) = (expression(rt, first), expression(rt, second));
    decide(rt.alloc(), &first, &second, budget).expect(rt, "there is memory")
}

/// It is answered of two texts, within a budget.
fn decided(
    rt: &(impl Abort + AllocGlobal),
    first: &str,
    second: &str,
    budget: usize,
    wanted: Sameness,
) {
    let found = decided_of(rt, first, second, budget);
    same(rt, found == wanted, true);
}

#[test]
fn what_is_not_decided_has_a_cause(rt: HostRuntime) {
    decided(
        &rt,
        "tcp",
        "ip proto 6",
        3,
        Sameness::NotDecided(Cause::Nodes),
    );
    decided(
        &rt,
        "ip[12:4] * ip[16:4] = 3",
        "3 = ip[16:4] * ip[12:4]",
        1000,
        Sameness::NotDecided(Cause::Product),
    );
}

#[test]
fn the_same_tree_is_the_same_whatever_it_calculates(rt: HostRuntime) {
    decided(
        &rt,
        "ip[2:2] - ((ip[0] & 15) << 2) != 0",
        "(ip[2:2] - ((ip[0] & 15) << 2)) != 0",
        1,
        Sameness::Same,
    );
}

/// `count` tests of four bytes each, one after the other, joined by `and`.
fn chain(rt: &(impl Abort + AllocGlobal), count: u16, last: u32) -> String {
    let mut text = String::new(rt.alloc());
    for place in 0..count {
        let number = u32::from(place);
        let wanted = if place + 1 == count { last } else { number };
        let joined = if place == 0 { "" } else { " and " };
        let offset = 4 * number;
        write!(text, "{joined}ether[{offset}:4] = {wanted}").expect(rt, "there is memory");
    }
    text
}

#[test]
fn what_asks_for_thousands_of_bits_is_decided(rt: HostRuntime) {
    let (first, second) = (chain(&rt, 100, 5), chain(&rt, 100, 6));
    let whole = format!(in rt.alloc(); "not not ({first})").expect(&rt, "there is memory");
    decided(&rt, &first, &whole, 1_000_000, Sameness::Same);
    let other = decided_of(&rt, &first, &second, 1_000_000);
    same(&rt, matches!(other, Sameness::Differ(_)), true);
}

/// A chain of `count` tests.
fn deep(rt: &(impl Abort + AllocGlobal), count: u32) -> String {
    let mut text = String::new(rt.alloc());
    for _ in 1..count {
        text.push_str("tcp or ").expect(rt, "there is memory");
    }
    text.push_str("tcp").expect(rt, "there is memory");
    text
}

#[test]
fn more_than_a_thousand_levels_are_not_decided(rt: HostRuntime) {
    let (long, longer) = (deep(&rt, 1000), deep(&rt, 1001));
    decided(&rt, &long, "ip proto 6", 100_000, Sameness::Same);
    let wanted = Sameness::NotDecided(Cause::Levels);
    decided(&rt, &longer, "ip proto 6", 100_000, wanted);
}

#[test]
fn the_same_tree_may_have_more_levels(rt: HostRuntime) {
    let (first, second) = (deep(&rt, 1150), deep(&rt, 1150));
    decided(&rt, &first, &second, 1, Sameness::Same);
}
