//! What expressions weigh and need, and what `compile` looks at first: what no command shows.

use crate::same::same;
use bpfvm::run;
use filtergen::{
    ExpressionFault, MAX_NEED, MAX_SNAP, MAX_WEIGHT, Refusal, Verdict, compile, compile_text,
    evaluate, need, weight,
};
use filterlang::{Expr, parse};
use std::process::Abort;

/// The text before, another text, how often, and the text after.
type Text = (&'static str, &'static str, usize, &'static str);

/// A chain whose program is too long.
const LONG: Text = ("ip", "||ip", 2047, "");

/// The text before, the number of signs of `1+(1+(..(1+1)..))` in the middle, and the text after.
type Nested = (&'static str, usize, &'static str);

/// A value that needs one more word than there is, and one that is too heavy as well.
const DEEP: Nested = ("", 17, " = 18");

const HEAVY: Nested = ("", 60, " = 61");

fn tree_of(rt: &(impl Abort + AllocGlobal), text: &str) -> Expr {
    parse(rt.alloc(), text).expect(rt, "the text is an expression")
}

fn repeated(rt: &(impl Abort + AllocGlobal), text: Text) -> Expr {
    let (before, next, times, behind) = text;
    let between = next.repeat(rt.alloc(), times).expect(rt, "there is memory");
    let text = format!(in rt.alloc(); "{before}{between}{behind}").expect(rt, "there is memory");
    tree_of(rt, text.as_str())
}

fn nested(rt: &(impl Abort + AllocGlobal), text: Nested) -> Expr {
    let (before, signs, behind) = text;
    let times = signs.saturating_sub(1);
    let open = "1+("
        .repeat(rt.alloc(), times)
        .expect(rt, "there is memory");
    let closed = ")".repeat(rt.alloc(), times).expect(rt, "there is memory");
    let text = format!(in rt.alloc(); "{before}{open}1+1{closed}{behind}").expect(
        rt,
        "there is memory",
    );
    tree_of(rt, text.as_str())
}

/// What expressions weigh.
static WEIGHTS: [(Text, u64); 6] = [
    (("", "", 0, ""), 0),
    (("port (1", " or 2", 11, ")"), 480),
    (("port (1", " or 2", 12, ")"), 520),
    (("port (1", " or 2", 11, ") or len + 1 = 0"), MAX_WEIGHT),
    (LONG, 81_920),
    (("ether[1]", "+ether[1]", 300, " = 0"), 9_030),
];

static NESTED_WEIGHTS: [(Nested, u64); 2] = [(("", 16, " = 17"), 170), (HEAVY, 610)];

/// A tree weighs this much.
fn weighs(rt: &impl Abort, tree: Expr, want: u64) {
    same(rt, weight(&tree), want);
}

#[test]
fn expressions_weigh_as_worked_out(rt: HostRuntime) {
    for (text, want) in WEIGHTS.iter() {
        weighs(&rt, repeated(&rt, *text), *want);
    }
    for (text, want) in NESTED_WEIGHTS.iter() {
        weighs(&rt, nested(&rt, *text), *want);
    }
}

/// What values need. A comparison keeps its left value in a word too, and the need is the most that
/// a relation has, wherever it is.
static NEEDS: [(Nested, u64); 5] = [
    (("", 16, " = 17"), MAX_NEED),
    (DEEP, 17),
    (("16 = ", 15, ""), 16),
    (("17 = ", 16, ""), 17),
    (("not (ip or ", 17, " = 18)"), 17),
];

const SUMS: Text = (
    "ether[1]",
    "+ether[1]",
    7,
    " = ether[3]+ether[3]+ether[3]+ether[3]",
);

/// Fifteen differences, each the right side of another.
const DIFFERENCES: &str =
    "9 = ether[0]-(ether[1]-(ether[2]-(ether[3]-(ether[4]-(ether[5]-(ether[6]-(ether[7]-(ether[8]-(ether[9]-(ether[10]-(ether[11]-(ether[12]-(ether[13]-(ether[14]-ether[15]))))))))))))))";

/// A tree needs this many words.
fn needs(rt: &impl Abort, tree: Expr, want: u64) {
    same(rt, need(&tree), want);
}

#[test]
fn values_need_as_worked_out(rt: HostRuntime) {
    for (text, want) in NEEDS.iter() {
        needs(&rt, nested(&rt, *text), *want);
    }
    needs(&rt, repeated(&rt, SUMS), 2);
    needs(&rt, tree_of(&rt, DIFFERENCES), 16);
}

/// A tree is refused at a snapshot length, for this.
fn is_refused_at(rt: &impl Abort, tree: &Expr, snap: u32) {
    same(
        rt,
        (snap, compile(tree, snap).err()),
        (snap, Some(Refusal::BadSnap)),
    );
}

/// A tree is refused for its snapshot length, whatever else is wrong.
fn is_refused(rt: &impl Abort, tree: Expr) {
    for snap in [0, MAX_SNAP + 1, u32::MAX] {
        is_refused_at(rt, &tree, snap);
    }
}

#[test]
fn the_snapshot_length_is_looked_at_first(rt: HostRuntime) {
    is_refused(&rt, repeated(&rt, LONG));
    is_refused(&rt, nested(&rt, DEEP));
    is_refused(&rt, nested(&rt, HEAVY));
    let fault = compile_text(rt.alloc(), "ip", 0).err();
    same(&rt, fault, Some(ExpressionFault::Tree(Refusal::BadSnap)));
}

#[test]
fn a_bad_snapshot_length_is_reported_by_its_name(rt: HostRuntime) {
    let told = format!(in rt.alloc(); "{}", Refusal::BadSnap).expect(&rt, "there is memory");
    same(&rt, told.as_str(), "BadSnap");
}

/// The first 14 bytes of a frame of IPv4, and of one of ARP.
const IP: [u8; 14] = [0, 0, 0, 0, 0, 0, 0, 0, 0, 0, 0, 0, 8, 0];

const ARP: [u8; 14] = [0, 0, 0, 0, 0, 0, 0, 0, 0, 0, 0, 0, 8, 6];

/// A program of this snapshot length keeps this much.
fn keeps(rt: &(impl Abort + AllocGlobal), snap: u32) {
    let program = compile_text(rt.alloc(), "ip", snap).expect(rt, "it compiles");
    same(rt, run(&program, &IP, 38), snap);
}

#[test]
fn the_least_and_the_greatest_snapshot_length_are_answered(rt: HostRuntime) {
    keeps(&rt, 1);
    keeps(&rt, MAX_SNAP);
}

/// A tree answers this to a packet.
fn answers(rt: &impl Abort, tree: Expr, packet: &[u8], wire: u32, want: Verdict) {
    same(rt, evaluate(&tree, packet, wire), want);
}

#[test]
fn what_does_not_compile_is_evaluated(rt: HostRuntime) {
    answers(&rt, nested(&rt, DEEP), &[], 0, Verdict::Yes);
    answers(&rt, repeated(&rt, LONG), &IP, 38, Verdict::Yes);
    answers(&rt, repeated(&rt, LONG), &ARP, 42, Verdict::No);
}
