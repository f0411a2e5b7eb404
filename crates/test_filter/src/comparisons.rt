//! Programs compared with the evaluator: every primitive, and random trees, on frames that are cut
//! short.

ghost use Rattle.std.specs.Prelude.{◌<◌};

use crate::random_relations::random_relation;
use crate::same::same;
use bpfvm::{Program, run};
use filtergen::{MAX_WEIGHT, Refusal, Verdict, compile, evaluate, weight};
use filterlang::{Direction, EthernetAddress, Expr, Network, Plain, Primitive, Transport};
use std::process::Abort;
use test_fixtures::captures::bytes_of;

/// Frames for each branch of each primitive, as hexadecimal digits.
static FRAMES: [&str; 12] = [
    // UDP, 10.0.0.1 port 53 to 10.0.0.2 port 53
    "ffffffffffff 000102030405 0800 4500001800000000 4011 0000 0a000001 0a000002 00350035",
    // TCP, 10.0.0.3 port 80 to 10.0.0.1 port 443
    "000102030405 060708090a0b 0800 4500002800000000 4006 0000 0a000003 0a000001 005001bb 0000000000000000 50020000",
    // SCTP, to a multicast address
    "01005e000001 000102030405 0800 4500002000000000 4084 0000 0a000001 e0000001 00350050 00000000",
    // UDP after a header of 24 bytes
    "000102030405 060708090a0b 0800 4600001c00000000 4011 0000 0a000001 0b000001 01010100 00500035",
    // a header that claims to have no bytes, and one that claims 60
    "000102030405 060708090a0b 0800 4000001800000000 4006 0000 0a000001 0a000002 00350035",
    "000102030405 060708090a0b 0800 4f00001800000000 4006 0000 0a000001 0a000002 00350035",
    // a first and a later fragment of TCP
    "000102030405 060708090a0b 0800 4500002800002000 4006 0000 0a000001 0a000002 00350050",
    "000102030405 060708090a0b 0800 4500002800000001 4006 0000 0a000001 0a000002 00350050",
    // ICMP
    "060708090a0b 000102030405 0800 4500002400000000 4001 0000 0a000002 0a000001 0800f7ff 00000000",
    // ARP and RARP
    "ffffffffffff 000102030405 0806 0001080006040001 000102030405 0a000001 000000000000 0a000002",
    "ffffffffffff 000102030405 8035 0001080006040003 000102030405 0a000002 000102030405 0a000003",
    // IPv6
    "333300000001 000102030405 86dd 6000000000081140 00000000000000000000000000000001",
];

pub(crate) fn frames(rt: &(impl Abort + AllocGlobal)) -> Vec<Vec<u8>> {
    let mut frames = Vec::new(rt.alloc());
    for hex in FRAMES.iter() {
        let frame = bytes_of(rt.alloc(), hex).expect(rt, "there is memory");
        frames.push(frame).expect(rt, "there is memory");
    }
    frames
}

static DIRECTIONS: [Direction; 4] = [
    Direction::Src,
    Direction::Dst,
    Direction::SrcOrDst,
    Direction::SrcAndDst,
];

static NETWORKS: [Option<Network>; 4] = [
    None,
    Some(Network::Ip),
    Some(Network::Arp),
    Some(Network::Rarp),
];

static TRANSPORTS: [Option<Transport>; 4] = [
    None,
    Some(Transport::Tcp),
    Some(Transport::Udp),
    Some(Transport::Sctp),
];

/// Addresses with their masks. Of the last two one has bits outside its mask, as no text has, and
/// one has none at all.
pub(crate) static NETS: [(u32, u32); 6] = [
    (0x0a00_0001, 0xffff_ffff),
    (0x0a00_0002, 0xffff_ffff),
    (0x0a00_0000, 0xff00_0000),
    (0x0a00_0000, 0xffff_fffc),
    (0x0a00_0001, 0xffff_0000),
    (0, 0),
];

/// Ranges of ports. The last one reads as no text.
pub(crate) static RANGES: [(u16, u16); 5] = [
    (53, 53),
    (80, 443),
    (0, 65_535),
    (443, 443),
    (80, 53),
];

// The first three are in frames; the others have the first two or the last four bytes of one of
// these.
pub(crate) static ADDRESSES: [[u8; 6]; 6] = [
    [0, 1, 2, 3, 4, 5],
    [6, 7, 8, 9, 10, 11],
    [255, 255, 255, 255, 255, 255],
    [0, 1, 8, 9, 10, 11],
    [6, 7, 2, 3, 4, 5],
    [9, 9, 2, 3, 4, 5],
];

pub(crate) static PLAIN: [Plain; 7] = [
    Plain::Ip,
    Plain::Arp,
    Plain::Rarp,
    Plain::Tcp,
    Plain::Udp,
    Plain::Icmp,
    Plain::Sctp,
];

/// Primitives without a direction.
pub(crate) static UNDIRECTED: [Primitive; 14] = [
    Primitive::IpProto(0),
    Primitive::IpProto(17),
    Primitive::IpProto(255),
    Primitive::EtherProto(0x0800),
    Primitive::EtherProto(0x86dd),
    Primitive::EtherProto(0),
    Primitive::EtherBroadcast,
    Primitive::EtherMulticast,
    Primitive::IpMulticast,
    Primitive::Less(0),
    Primitive::Less(38),
    Primitive::Less(u32::MAX),
    Primitive::Greater(39),
    Primitive::Greater(0),
];

// The program, and that it is refused as too long only if it is heavy.
pub(crate) fn program_of(rt: &impl Abort, expr: &Expr) -> Option<Program> {
    match compile(expr, 96) {
        Ok(program) => Some(program),
        Err(refusal) => {
            same(rt, refusal, Refusal::TooLong);
            assert!(rt; weight(expr) > MAX_WEIGHT);
            None
        }
    }
}

// A frame's own length.
pub(crate) fn wire_of(frame: &[u8]) -> u32 {
    frame.len().min(65_535) as u32
}

pub(crate) fn compare(rt: &impl Abort, expr: &Expr, program: &Program, packet: &[u8], wire: u32) {
    let verdict = evaluate(expr, packet, wire);
    let expected = if verdict == Verdict::Yes { 96 } else { 0 };
    assert_eq!(rt;
        run(program, packet, wire),
        expected,
        "{expr:?} on {packet:?}"
    );
}

// On a frame, cut at each byte.
pub(crate) fn compare_cut(rt: &impl Abort, expr: &Expr, program: &Program, frame: &[u8]) {
    let wire = wire_of(frame);
    for end in 0..=frame.len() {
        compare(rt, expr, program, &frame[..end], wire);
    }
}

// A primitive on every frame, cut at each byte, and its length on the wire at both bounds.
fn compare_everywhere(rt: &impl Abort, frames: &[Vec<u8>], primitive: Primitive) {
    let expr = Expr::Test(primitive);
    let program = program_of(rt, &expr).expect(rt, "a primitive compiles");
    for frame in frames {
        let frame = frame.as_slice();
        compare_cut(rt, &expr, &program, frame);
        compare(rt, &expr, &program, frame, u32::MAX);
        compare(rt, &expr, &program, frame, 0);
    }
}

#[test]
fn every_protocol_on_frames_cut_at_each_byte(rt: HostRuntime) {
    let frames = frames(&rt);
    for word in PLAIN.iter() {
        compare_everywhere(&rt, frames.as_slice(), Primitive::Protocol(*word));
    }
    for primitive in UNDIRECTED.iter() {
        compare_everywhere(&rt, frames.as_slice(), *primitive);
    }
}

// Every network in a direction.
fn compare_networks(rt: &impl Abort, frames: &[Vec<u8>], direction: Direction) {
    for network in NETWORKS.iter() {
        for (address, mask) in NETS.iter() {
            let primitive = Primitive::Net {
                network: *network,
                direction,
                address: *address,
                mask: *mask,
            };
            compare_everywhere(rt, frames, primitive);
        }
    }
}

// Every address of Ethernet in a direction.
fn compare_hosts(rt: &impl Abort, frames: &[Vec<u8>], direction: Direction) {
    for octets in ADDRESSES.iter() {
        let address = EthernetAddress { octets: *octets };
        let primitive = Primitive::EtherHost { direction, address };
        compare_everywhere(rt, frames, primitive);
    }
}

#[test]
fn every_address_on_frames_cut_at_each_byte(rt: HostRuntime) {
    let frames = frames(&rt);
    for direction in DIRECTIONS.iter() {
        compare_networks(&rt, frames.as_slice(), *direction);
        compare_hosts(&rt, frames.as_slice(), *direction);
    }
}

// Every range of ports in a direction.
fn compare_ports(rt: &impl Abort, frames: &[Vec<u8>], direction: Direction) {
    for transport in TRANSPORTS.iter() {
        for (low, high) in RANGES.iter() {
            let primitive = Primitive::Ports {
                transport: *transport,
                direction,
                low: *low,
                high: *high,
            };
            compare_everywhere(rt, frames, primitive);
        }
    }
}

#[test]
fn every_port_on_frames_cut_at_each_byte(rt: HostRuntime) {
    let frames = frames(&rt);
    for direction in DIRECTIONS.iter() {
        compare_ports(&rt, frames.as_slice(), *direction);
    }
}

/// Numbers that look random, the same in each run (Marsaglia's xorshift of 64 bits).
#[derive(Drop)]
pub(crate) struct Random {
    pub state: u64,
}

impl Random {
    pub fn next(&mut self) -> u64 {
        self.state ^= self.state << 13;
        self.state ^= self.state >> 7;
        self.state ^= self.state << 17;
        self.state
    }

    // A number below `end`.
    pub fn below(&mut self, end: usize) -> usize
        requires { 0 < end }
        ensures { result < end }
    {
        (self.next() % end as u64) as usize
    }
}

pub(crate) fn random_primitive(random: &mut Random) -> Primitive {
    let direction = DIRECTIONS[random.below(4)];
    match random.below(6) {
        0 => Primitive::Protocol(PLAIN[random.below(7)]),
        1 => UNDIRECTED[random.below(14)],
        2 => Primitive::EtherHost {
            direction,
            address: EthernetAddress {
                octets: ADDRESSES[random.below(6)],
            },
        },
        3 => {
            let (address, mask) = NETS[random.below(6)];
            Primitive::Net {
                network: NETWORKS[random.below(4)],
                direction,
                address,
                mask,
            }
        }
        _ => {
            let (low, high) = RANGES[random.below(5)];
            Primitive::Ports {
                transport: TRANSPORTS[random.below(4)],
                direction,
                low,
                high,
            }
        }
    }
}

pub(crate) fn boxed(rt: &(impl Abort + AllocGlobal), expr: Expr) -> Box<Expr> {
    Box::new(rt.alloc(), expr).expect(rt, "there is memory")
}

// Two trees joined by `and` or by `or`, in either order.
fn joined(rt: &(impl Abort + AllocGlobal), random: &mut Random, one: Expr, other: Expr) -> Expr {
    let (one, other) = (boxed(rt, one), boxed(rt, other));
    let (left, right) = if random.below(2) == 0 {
        (one, other)
    } else {
        (other, one)
    };
    if random.below(2) == 0 {
        Expr::And(left, right)
    } else {
        Expr::Or(left, right)
    }
}

// A tree, negated now and then.
fn negated(rt: &(impl Abort + AllocGlobal), random: &mut Random, tree: Expr) -> Expr {
    if random.below(4) == 0 {
        Expr::Not(boxed(rt, tree))
    } else {
        tree
    }
}

// A tree, and this many others joined to it, negated or not.
fn joined_trees(
    rt: &(impl Abort + AllocGlobal),
    random: &mut Random,
    mut tree: Expr,
    others: Vec<Expr>,
) -> Expr {
    for other in others {
        let both = joined(rt, random, tree, other);
        tree = negated(rt, random, both);
    }
    tree
}

// A primitive or a relation, or now and then the empty expression.
fn random_leaf(rt: &(impl Abort + AllocGlobal), random: &mut Random) -> Expr {
    match random.below(12) {
        0 => Expr::Everything,
        1 | 2 | 3 => random_relation(rt, random),
        _ => Expr::Test(random_primitive(random)),
    }
}

// A tree of a few primitives.
fn random_branch(rt: &(impl Abort + AllocGlobal), random: &mut Random) -> Expr {
    let mut leaves = Vec::new(rt.alloc());
    for _ in 0..random.below(4) {
        leaves
            .push(random_leaf(rt, random))
            .expect(rt, "there is memory");
    }
    let first = random_leaf(rt, random);
    joined_trees(rt, random, first, leaves)
}

// A tree of up to this many such trees.
fn random_tree(rt: &(impl Abort + AllocGlobal), random: &mut Random, most: u32) -> Expr {
    let mut branches = Vec::new(rt.alloc());
    for _ in 1..most {
        branches
            .push(random_branch(rt, random))
            .expect(rt, "there is memory");
    }
    let first = random_branch(rt, random);
    joined_trees(rt, random, first, branches)
}

// A tree and its program on every frame, cut anywhere and whole; how many whole frames it accepts.
fn accepted_by(
    rt: &impl Abort,
    random: &mut Random,
    expr: &Expr,
    program: &Program,
    frames: &[Vec<u8>],
) -> u32 {
    let mut accepted = 0u32;
    for frame in frames {
        let frame = frame.as_slice();
        let wire = wire_of(frame);
        let end = random.below(frame.len() + 1);
        compare(rt, expr, program, &frame[..end], wire);
        compare(rt, expr, program, frame, wire);
        if evaluate(expr, frame, wire) == Verdict::Yes {
            accepted = accepted.saturating_add(1);
        }
    }
    accepted
}

// A tree compared, and how many frames it accepts; nothing if it is too long.
fn compared(rt: &impl Abort, random: &mut Random, expr: Expr, frames: &[Vec<u8>]) -> Option<u32> {
    match program_of(rt, &expr) {
        Some(program) => Some(accepted_by(rt, random, &expr, &program, frames)),
        None => None,
    }
}

#[test]
fn two_thousand_random_trees(rt: HostRuntime) {
    let frames = frames(&rt);
    let mut random = Random { state: 1993 };
    let mut compiled = 0u32;
    let mut accepted = 0u32;
    for number in 0..2000u32 {
        let expr = random_tree(&rt, &mut random, 1 + number % 12);
        if let Some(more) = compared(&rt, &mut random, expr, frames.as_slice()) {
            compiled = compiled.saturating_add(1);
            accepted = accepted.saturating_add(more);
        }
    }
    // Most of them compile, and they accept some frames and reject others.
    assert!(rt; compiled > 1_000, "{compiled}");
    assert!(rt; accepted > 2_000 && accepted < 20_000, "{accepted}");
}
