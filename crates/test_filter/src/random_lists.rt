//! Random chains whose links differ only in their numbers, which become lists of a program, on
//! frames cut at each byte.

use crate::comparisons::{
    ADDRESSES, NETS, PLAIN, RANGES, Random, UNDIRECTED, boxed, frames, random_primitive,
};
use crate::random_relations::{Answers, compared};
use filterlang::{EthernetAddress, Expr, Network, Plain, Primitive, Transport};
use std::process::Abort;

/// Another primitive of the same kind: of the same protocol, direction and mask, sometimes with the
/// same number.
fn neighbour(random: &mut Random, primitive: Primitive) -> Primitive {
    match primitive {
        Primitive::Protocol(_) => Primitive::Protocol(PLAIN[random.below(7)]),
        Primitive::IpProto(_) => UNDIRECTED[random.below(3)],
        Primitive::EtherProto(_) => UNDIRECTED[3 + random.below(3)],
        Primitive::EtherHost { direction, .. } => Primitive::EtherHost {
            direction,
            address: EthernetAddress {
                octets: ADDRESSES[random.below(6)],
            },
        },
        Primitive::Net {
            network,
            direction,
            mask,
            ..
        } => {
            let (address, _) = NETS[random.below(6)];
            Primitive::Net {
                network,
                direction,
                address: address & mask,
                mask,
            }
        }
        Primitive::Ports {
            transport,
            direction,
            ..
        } => {
            let (low, high) = RANGES[random.below(5)];
            Primitive::Ports {
                transport,
                direction,
                low,
                high,
            }
        }
        other => other,
    }
}

fn word_of(network: Network) -> Plain {
    match network {
        Network::Ip => Plain::Ip,
        Network::Arp => Plain::Arp,
        Network::Rarp => Plain::Rarp,
    }
}

fn word_of_transport(transport: Transport) -> Plain {
    match transport {
        Transport::Tcp => Plain::Tcp,
        Transport::Udp => Plain::Udp,
        Transport::Sctp => Plain::Sctp,
    }
}

/// The word of a primitive's protocol, and the primitive of any protocol that follows it.
fn apart(primitive: Primitive) -> Option<(Plain, Primitive)> {
    match primitive {
        Primitive::Net {
            network: Some(network),
            direction,
            address,
            mask,
        } => {
            let any = Primitive::Net {
                network: None,
                direction,
                address,
                mask,
            };
            Some((word_of(network), any))
        }
        Primitive::Ports {
            transport: Some(transport),
            direction,
            low,
            high,
        } => {
            let any = Primitive::Ports {
                transport: None,
                direction,
                low,
                high,
            };
            Some((word_of_transport(transport), any))
        }
        _ => None,
    }
}

/// A primitive, or the word of its protocol and what follows it.
fn tested(rt: &(impl Abort + AllocGlobal), primitive: Primitive, is_apart: bool) -> Expr {
    match apart(primitive) {
        Some((word, any)) if is_apart => {
            let word = boxed(rt, Expr::Test(Primitive::Protocol(word)));
            Expr::And(word, boxed(rt, Expr::Test(any)))
        }
        _ => Expr::Test(primitive),
    }
}

/// A link of a chain: of one by `and` each test is negated.
fn link(
    rt: &(impl Abort + AllocGlobal),
    random: &mut Random,
    primitive: Primitive,
    is_negated: bool,
) -> Expr {
    let test = tested(rt, primitive, random.below(2) == 0);
    if is_negated {
        Expr::Not(boxed(rt, test))
    } else {
        test
    }
}

/// A chain with one link more.
fn linked(rt: &(impl Abort + AllocGlobal), chain: Expr, link: Expr, is_negated: bool) -> Expr {
    let (left, right) = (boxed(rt, chain), boxed(rt, link));
    if is_negated {
        Expr::And(left, right)
    } else {
        Expr::Or(left, right)
    }
}

/// A chain of up to forty neighbours of two kinds.
fn random_chain(rt: &(impl Abort + AllocGlobal), random: &mut Random) -> Expr {
    let kinds = [random_primitive(random), random_primitive(random)];
    let is_negated = random.below(2) == 0;
    let mut chain = link(rt, random, kinds[0], is_negated);
    for _ in 0..random.below(40) {
        let kind = kinds[random.below(2)];
        let next = neighbour(random, kind);
        let next = link(rt, random, next, is_negated);
        chain = linked(rt, chain, next, is_negated);
    }
    chain
}

#[test]
fn five_hundred_random_lists_on_frames_cut_at_each_byte(rt: HostRuntime) {
    let frames = frames(&rt);
    let mut random = Random { state: 2026 };
    let mut answers = Answers {
        yes: 0,
        no: 0,
        abort: 0,
    };
    for _ in 0..500u32 {
        let chain = random_chain(&rt, &mut random);
        compared(&rt, chain, frames.as_slice(), &mut answers);
    }
    // Each answer comes often.
    let Answers { yes, no, abort } = answers;
    assert!(rt; yes > 200 && no > 200 && abort > 20, "{yes} {no} {abort}");
}
