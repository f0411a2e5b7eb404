//! What values are of packets: relations that get one answer from all packets, or from all that
//! have enough bytes. The answers are written down by hand, from the tables of docs/LANGUAGE.md.

ghost use Rattle.std.specs.Prelude.{◌<◌, IfSome};

use filter_bdd::{Answer, Budget, Node};
use filter_symbols::{Refusal, Symbols};
use filterlang::{Expr, parse};
use std::process::Abort;

/// What the relation of a text answers to all packets, if that is one answer.
fn answer_to_all(
    rt: &(impl Abort + AllocGlobal),
    text: &str,
    header: Option<u32>,
) -> Result<Option<Answer>, Refusal>
    requires { IfSome header (λ n. n < 16) }
{
    let budget = Budget {
        nodes: 100_000,
        steps: 1_000_000,
    };
    let mut symbols = Symbols::new(rt.alloc(), header, budget);
    let expr = parse(rt.alloc(), text).expect(rt, "an expression");
    let Expr::Relation(comparison, left, right) = &expr else {
        return Ok(None);
    };
    let place = symbols.compare_values(*comparison, left, right)?;
    match symbols.words.diagrams.node(place) {
        Node::Leaf(answer) => Ok(Some(answer)),
        Node::Branch(_, _, _) => Ok(None),
    }
}

/// Relations that are so of each packet with this many captured bytes, if its IPv4 header has five
/// words.
static ALWAYS: [(&str, u32); 12] = [
    ("1 + 1 = 2", 0),
    ("4294967295 + 1 = 0", 0),
    ("0 - 1 = 4294967295", 0),
    ("len = len + 0", 0),
    ("ip[0] & 15 = 5", 15),
    ("ip[8] / 64 * 64 <= ip[8]", 23),
    ("ip[8] - ip[8] % 7 = ip[8] / 7 * 7", 23),
    ("ip[2:2] = ip[2] * 256 + ip[3]", 18),
    ("ip[8] << 24 >> 24 = ip[8]", 23),
    ("ether[ether[3] & 1] <= 255", 4),
    ("tcp[0:2] = ip[(ip[0] & 15) << 2:2]", 36),
    ("ip[1] ^ ip[1] = 0", 16),
];

/// Relations that are not so of one answer.
static OTHER: [&str; 4] = [
    "ip[8] / 64 * 64 = ip[8]",
    "ether[ether[0] & 1] <= 255",
    "ip[2:2] > 520",
    "len - 14 = 100",
];

#[test]
fn what_holds_of_all_packets_is_one_answer(rt: HostRuntime) {
    for (text, need) in ALWAYS.iter() {
        let found = answer_to_all(&rt, text, Some(5));
        assert_eq!(&rt; found, Ok(Some(Answer::Final(*need, true))));
    }
}

#[test]
fn what_some_packets_answer_is_no_leaf(rt: HostRuntime) {
    for text in OTHER.iter() {
        let found = answer_to_all(&rt, text, Some(5));
        assert_eq!(&rt; found, Ok(None));
    }
}

#[test]
fn a_quotient_by_zero_aborts_and_a_header_is_asked_for(rt: HostRuntime) {
    let quotient = answer_to_all(&rt, "1 / (ip[0] - ip[0]) = 1", Some(5));
    assert_eq!(&rt; quotient, Ok(Some(Answer::Never)));
    let transport = answer_to_all(&rt, "tcp[0] = 1", None);
    assert_eq!(&rt; transport, Err(Refusal::Header));
}
