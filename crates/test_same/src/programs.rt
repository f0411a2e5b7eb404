//! Expressions and programs of `tcpdump -ddd` (4.99.3 with libpcap 1.10.3, for Ethernet), and how
//! they differ.

use crate::same::same;
use bpfvm::read_listing;
use filter_same::{Cause, Filter, Sameness, decide_filters};
use filterlang::parse;
use std::process::Abort;

/// What tcpdump makes of the expression itself, which has the meaning of docs/LANGUAGE.md there.
static SAME: [(&str, &str); 10] = [
    ("ip", "4\n40 0 0 12\n21 0 1 2048\n6 0 0 262144\n6 0 0 0\n"),
    (
        "not ip",
        "4\n40 0 0 12\n21 0 1 2048\n6 0 0 0\n6 0 0 262144\n",
    ),
    (
        "less 100",
        "4\n128 0 0 0\n37 0 1 100\n6 0 0 0\n6 0 0 262144\n",
    ),
    (
        "ip and tcp port 80 and host 192.0.2.1",
        "17\n40 0 0 12\n21 0 14 2048\n48 0 0 23\n21 0 12 6\n40 0 0 20\n69 10 0 8191\n177 0 0 14\n72 0 0 14\n21 2 0 80\n72 0 0 16\n21 0 5 80\n32 0 0 26\n21 2 0 3221225985\n32 0 0 30\n21 0 1 3221225985\n6 0 0 262144\n6 0 0 0\n",
    ),
    (
        "tcp[13] & 2 != 0",
        "11\n40 0 0 12\n21 0 8 2048\n48 0 0 23\n21 0 6 6\n40 0 0 20\n69 4 0 8191\n177 0 0 14\n80 0 0 27\n69 0 1 2\n6 0 0 262144\n6 0 0 0\n",
    ),
    (
        "net 10.0.0.0/8",
        "18\n40 0 0 12\n21 0 6 2048\n32 0 0 26\n84 0 0 4278190080\n21 11 0 167772160\n32 0 0 30\n84 0 0 4278190080\n21 8 9 167772160\n21 1 0 2054\n21 0 7 32821\n32 0 0 28\n84 0 0 4278190080\n21 3 0 167772160\n32 0 0 38\n84 0 0 4278190080\n21 0 1 167772160\n6 0 0 262144\n6 0 0 0\n",
    ),
    (
        "ip and (udp port 53 or icmp)",
        "14\n40 0 0 12\n21 0 11 2048\n48 0 0 23\n21 0 7 17\n40 0 0 20\n69 7 0 8191\n177 0 0 14\n72 0 0 14\n21 3 0 53\n72 0 0 16\n21 1 2 53\n21 0 1 1\n6 0 0 262144\n6 0 0 0\n",
    ),
    (
        "ip and portrange 6000-6063",
        "17\n40 0 0 12\n21 0 14 2048\n48 0 0 23\n21 2 0 132\n21 1 0 6\n21 0 10 17\n40 0 0 20\n69 8 0 8191\n177 0 0 14\n72 0 0 14\n53 0 1 6000\n37 0 3 6063\n72 0 0 16\n53 0 2 6000\n37 1 0 6063\n6 0 0 262144\n6 0 0 0\n",
    ),
    (
        "ip[0] & 15 > 5",
        "7\n40 0 0 12\n21 0 4 2048\n48 0 0 14\n84 0 0 15\n37 0 1 5\n6 0 0 262144\n6 0 0 0\n",
    ),
    (
        "ether host 2:0:0:0:0:1",
        "10\n32 0 0 8\n21 0 2 1\n40 0 0 6\n21 4 0 512\n32 0 0 2\n21 0 3 1\n40 0 0 0\n21 0 1 512\n6 0 0 262144\n6 0 0 0\n",
    ),
];

/// What it makes of another expression, or of one that it reads as one for IPv6 too.
static DIFFER: [(&str, &str); 6] = [
    (
        "port 80",
        "24\n40 0 0 12\n21 0 8 34525\n48 0 0 20\n21 2 0 132\n21 1 0 6\n21 0 17 17\n40 0 0 54\n21 14 0 80\n40 0 0 56\n21 12 13 80\n21 0 12 2048\n48 0 0 23\n21 2 0 132\n21 1 0 6\n21 0 8 17\n40 0 0 20\n69 6 0 8191\n177 0 0 14\n72 0 0 14\n21 2 0 80\n72 0 0 16\n21 0 1 80\n6 0 0 262144\n6 0 0 0\n",
    ),
    (
        "tcp",
        "12\n40 0 0 12\n21 0 2 2048\n48 0 0 23\n21 6 7 6\n21 0 6 34525\n48 0 0 20\n21 3 0 6\n21 0 3 44\n48 0 0 54\n21 0 1 6\n6 0 0 262144\n6 0 0 0\n",
    ),
    ("ip", "4\n40 0 0 12\n21 0 1 2054\n6 0 0 262144\n6 0 0 0\n"),
    (
        "ip and udp port 53",
        "13\n40 0 0 12\n21 0 10 2048\n48 0 0 23\n21 0 8 17\n40 0 0 20\n69 6 0 8191\n177 0 0 14\n72 0 0 14\n21 2 0 54\n72 0 0 16\n21 0 1 54\n6 0 0 262144\n6 0 0 0\n",
    ),
    (
        "tcp[13] & 2 != 0",
        "11\n40 0 0 12\n21 0 8 2048\n48 0 0 23\n21 0 6 6\n40 0 0 20\n69 4 0 8191\n177 0 0 14\n80 0 0 27\n21 0 1 2\n6 0 0 262144\n6 0 0 0\n",
    ),
    (
        "less 100",
        "4\n128 0 0 0\n37 0 1 101\n6 0 0 0\n6 0 0 262144\n",
    ),
];

/// What is known of an expression and of a listing, as far as these nodes decide it.
fn found_within(
    rt: &(impl Abort + AllocGlobal),
    expr: &str,
    listing: &str,
    budget: usize,
) -> Sameness {
    let expr = parse(rt.alloc(), expr).expect(rt, "an expression");
    let program = read_listing(listing.as_bytes()).expect(rt, "a listing");
    let filters = (Filter::Expression(&expr), Filter::Program(&program));
    decide_filters(rt.alloc(), filters.0, filters.1, budget).expect(rt, "there is memory")
}

/// What is known of an expression and of a listing.
fn found(rt: &(impl Abort + AllocGlobal), expr: &str, listing: &str) -> Sameness {
    found_within(rt, expr, listing, 500_000)
}

#[test]
fn programs_of_tcpdump_are_the_same_where_its_meaning_is(rt: HostRuntime) {
    for (expr, listing) in SAME.iter() {
        same(&rt, found(&rt, expr, listing) == Sameness::Same, true);
    }
}

#[test]
fn other_programs_differ(rt: HostRuntime) {
    for (expr, listing) in DIFFER.iter() {
        let differs = matches!(found(&rt, expr, listing), Sameness::Differ(_));
        same(&rt, differs, true);
    }
}

/// Listings that accept what an expression does. They calculate, use scratch memory and X, and
/// return the accumulator.
static CALCULATING: [(&str, &str); 6] = [
    // len + 1 = 101
    (
        "len = 100",
        "5\n128 0 0 0\n4 0 0 1\n21 0 1 101\n6 0 0 1\n6 0 0 0\n",
    ),
    // M[3] = len; X = M[3]; A = 100; A = X
    (
        "len = 100",
        "7\n128 0 0 0\n2 0 0 3\n97 0 0 3\n0 0 0 100\n29 0 1 0\n6 0 0 1\n6 0 0 0\n",
    ),
    // ret a, of len - 100
    ("len != 100", "3\n128 0 0 0\n20 0 0 100\n22 0 0 0\n"),
    // A = 1000 / len = 10
    (
        "len >= 91 and len <= 100",
        "6\n129 0 0 0\n0 0 0 1000\n60 0 0 0\n21 0 1 10\n6 0 0 1\n6 0 0 0\n",
    ),
    // X = 4 * (P[14] & 15); A = P[X + 14]
    (
        "ether[(ether[14] & 15) * 4 + 14] = 7",
        "5\n177 0 0 14\n80 0 0 14\n21 0 1 7\n6 0 0 1\n6 0 0 0\n",
    ),
    // -len = -100
    (
        "len = 100",
        "5\n128 0 0 0\n132 0 0 0\n21 0 1 4294967196\n6 0 0 1\n6 0 0 0\n",
    ),
];

#[test]
fn what_a_program_calculates_is_decided(rt: HostRuntime) {
    for (expr, listing) in CALCULATING.iter() {
        same(&rt, found(&rt, expr, listing) == Sameness::Same, true);
    }
}

#[test]
fn a_program_that_calculates_another_number_differs(rt: HostRuntime) {
    let listing = "5\n128 0 0 0\n4 0 0 1\n21 0 1 100\n6 0 0 1\n6 0 0 0\n";
    let differs = matches!(found(&rt, "len = 100", listing), Sameness::Differ(_));
    same(&rt, differs, true);
}

/// Listings that are too large for three nodes, and why.
static TOO_LARGE: [(&str, Cause); 5] = [
    // X = 7; A = P[16:2] / X
    (
        "6\n1 0 0 7\n40 0 0 16\n60 0 0 0\n21 0 1 3\n6 0 0 1\n6 0 0 0\n",
        Cause::Nodes,
    ),
    // M[1] = 7; A = P[16:2]; X = M[1]; A = A % X
    (
        "8\n0 0 0 7\n2 0 0 1\n40 0 0 16\n97 0 0 1\n156 0 0 0\n21 0 1 3\n6 0 0 1\n6 0 0 0\n",
        Cause::Nodes,
    ),
    // X = P[16:2]; A = 7 * X
    (
        "8\n40 0 0 16\n7 0 0 0\n0 0 0 7\n44 0 0 0\n21 0 1 3\n6 0 0 1\n6 0 0 0\n6 0 0 0\n",
        Cause::Nodes,
    ),
    // M[1] = 7; X = P[18:2]; M[1] = X; A = 7; X = M[1]; A = A / X
    (
        "10\n0 0 0 7\n2 0 0 1\n40 0 0 18\n7 0 0 0\n3 0 0 1\n0 0 0 7\n97 0 0 1\n60 0 0 0\n22 0 0 0\n6 0 0 0\n",
        Cause::Quotient,
    ),
    // X = P[18:2]; A = P[16:2]; A = A * X
    (
        "7\n40 0 0 18\n7 0 0 0\n40 0 0 16\n44 0 0 0\n21 0 1 3\n6 0 0 1\n6 0 0 0\n",
        Cause::Product,
    ),
];

#[test]
fn a_constant_in_x_is_no_field(rt: HostRuntime) {
    for (listing, cause) in TOO_LARGE.iter() {
        let found = found_within(&rt, "ip", listing, 3);
        same(&rt, found == Sameness::NotDecided(*cause), true);
    }
}
