//! The compiler: what an expression accepts, and what is refused.
use crate::common::{ARP, UDP, joined, repeated, same};
use bpfvm::{Program, run};
use filtergen::{Refusal, compile, need, weight};
use filterlang::parse;
use std::process::Abort;

fn program_of(rt: &(impl Abort + AllocGlobal), text: &str) -> Program {
    let tree = parse(rt.alloc(), text).expect(rt, "a tree");
    compile(&tree, 96).expect(rt, "a program")
}

#[test]
fn primitives_accept_as_the_table_says(rt: HostRuntime) {
    let udp = joined(&rt, &[UDP]);
    let arp = joined(&rt, &[ARP]);
    let rows = [
        ("", true, true),
        ("src and dst port 53", true, false),
        ("dst net 10.0.0.0 mask 255.255.255.252", true, true),
        ("host 10.0.0.2", true, true),
        ("src host 10.0.0.2", false, false),
        ("ether proto \\ip or ether proto \\rarp", true, false),
        ("not ip multicast", true, true),
        ("greater 39", false, true),
        ("less 38", true, false),
        ("ip", true, false),
        ("arp", false, true),
        ("rarp", false, false),
        ("udp", true, false),
        ("icmp or sctp or tcp", false, false),
        ("port 53", true, false),
        ("tcp port 53", false, false),
        ("udp dst portrange 50-53", true, false),
        ("portrange 54-60", false, false),
        ("proto 17", true, false),
        ("ip proto \\udp", true, false),
        ("ether broadcast", true, true),
        ("multicast", true, true),
        ("ether src 0:1:2:3:4:5", true, true),
        ("ether dst 0:1:2:3:4:5", false, false),
        ("arp host 10.0.0.1", false, true),
        ("net 10", true, true),
        ("udp or tcp and arp", false, false),
    ];
    for (text, on_udp, on_arp) in rows {
        let program = program_of(&rt, text);
        let found = (
            text,
            run(&program, udp.as_slice(), 38) == 96,
            run(&program, arp.as_slice(), 42) == 96,
        );
        same(&rt, found, (text, on_udp, on_arp));
    }
}

/// The beginnings of frames, and frames of UDP: a later fragment, a first one, and ports 53 and 12, and 53 and 1.
const TWENTY: &str = "ffffffffffff000102030405 0800 450000180000";

const TEN: &str = "00010203040506070809";

const LATER: &str =
    "ffffffffffff000102030405 0800 4500001800000001 40110000 0a000001 0a000002 00350035";

const EARLY: &str =
    "ffffffffffff000102030405 0800 4500001800002000 40110000 0a000001 0a000002 00350035";

const TO_12: &str =
    "ffffffffffff000102030405 0800 4500001800000000 40110000 0a000001 0a000002 0035000c";

const TO_1: &str =
    "ffffffffffff000102030405 0800 4500001800000000 40110000 0a000001 0a000002 00350001";

#[test]
fn expressions_accept_by_the_bytes_of_a_frame(rt: HostRuntime) {
    let twelve = "port (1 or 2 or 3 or 4 or 5 or 6 or 7 or 8 or 9 or 10 or 11 or 12)";
    let last = "port (1 or 2 or 3 or 4 or 5 or 6 or 7 or 8 or 9 or 10 or 11 or 12) or len + 1 = 0";
    let rows = [
        ("udp[0:2] = 53", UDP, 38, true),
        ("ip[0] & 15 = 5", UDP, 38, true),
        ("ether[12:2] = 0x800", UDP, 38, true),
        ("(len - 8) / 10 = 3", UDP, 38, true),
        ("(len = 38)", UDP, 38, true),
        ("tcp[tcpflags] & tcp-syn != 0", UDP, 38, false),
        ("not tcp[tcpflags] & tcp-syn != 0", UDP, 38, true),
        ("udp[4] = 0", UDP, 38, false),
        ("not udp[4] = 0", UDP, 38, false),
        ("udp[4294967295] = 2", UDP, 38, true),
        ("ip[4294967295] = 0", UDP, 38, false),
        ("not ip[4294967295] = 0", UDP, 38, false),
        ("1 << 32 = 0", UDP, 38, true),
        ("-1 = 4294967295", UDP, 38, true),
        ("0 - 1 > 4294967294", UDP, 38, true),
        ("6 ^ 3 & 1 = 7", UDP, 38, true),
        ("2 | 2 ^ 2 = 2", UDP, 38, true),
        ("7 % (len - 60) = 1", UDP, 60, false),
        ("not 7 % (len - 60) = 1", UDP, 60, false),
        ("7 % (len - 60) = 1", UDP, 62, true),
        ("10 / (len - 60) = 1", UDP, 60, false),
        ("not 10 / (len - 60) = 1", UDP, 60, false),
        ("10 / (len - 60) = 1", UDP, 70, true),
        ("not 10 / (len - 60) = 1", UDP, 50, true),
        ("icmp[icmptype] = icmp-echo", UDP, 38, false),
        ("len >= 38", UDP, 38, true),
        ("len <= 37", UDP, 38, false),
        ("len < 39", UDP, 38, true),
        ("not tcp", TWENTY, 60, false),
        ("not arp", TWENTY, 60, true),
        ("ether host 0:1:2:3:4:5", TEN, 60, false),
        ("not ether host 0:1:2:3:4:5", TEN, 60, false),
        ("ether dst 0:1:2:3:4:5", TEN, 60, true),
        ("port 53", UDP, 60, true),
        ("port 53", LATER, 60, false),
        ("not port 53", LATER, 60, true),
        ("port 53", EARLY, 60, true),
        (twelve, UDP, 38, false),
        (twelve, TO_12, 38, true),
        (twelve, TO_1, 38, true),
        (last, UDP, 38, false),
        (last, UDP, u32::MAX, true),
    ];
    for (text, frame, wire, want) in rows {
        let (packet, program) = (joined(&rt, &[frame]), program_of(&rt, text));
        let found = run(&program, packet.as_slice(), wire) == 96;
        same(&rt, (text, found), (text, want));
    }
}

#[test]
fn refusals_come_by_snapshot_length_then_depth(rt: HostRuntime) {
    let rows = [
        (0, 0, Err(Refusal::BadSnap)),
        (0, 1, Ok(1)),
        (0, 262_144, Ok(262_144)),
        (0, 262_145, Err(Refusal::BadSnap)),
        (16, 96, Ok(96)),
        (17, 96, Err(Refusal::TooDeep)),
        (17, 0, Err(Refusal::BadSnap)),
    ];
    for (signs, snap, want) in rows {
        let (opened, closed) = (repeated(&rt, "1+(", signs), repeated(&rt, ")", signs));
        let text = format!(in rt.alloc(); "{opened}1{closed} = {signs} + 1").expect(&rt, "memory");
        let tree = parse(rt.alloc(), text.as_str()).expect(&rt, "a tree");
        let found = match compile(&tree, snap) {
            Ok(program) => Ok(run(&program, &[], 0)),
            Err(refusal) => Err(refusal),
        };
        same(&rt, found, want);
    }
}

#[test]
fn need_and_weight_are_counted_by_their_rules(rt: HostRuntime) {
    let rows = [
        ("", 0, 0),
        ("tcp or not udp", 0, 80),
        (
            "port (1 or 2 or 3 or 4 or 5 or 6 or 7 or 8 or 9 or 10 or 11 or 12)",
            0,
            480,
        ),
        (
            "port (1 or 2 or 3 or 4 or 5 or 6 or 7 or 8 or 9 or 10 or 11 or 12) or len + 1 = 0",
            1,
            500,
        ),
        (
            "port (1 or 2 or 3 or 4 or 5 or 6 or 7 or 8 or 9 or 10 or 11 or 12 or 13)",
            0,
            520,
        ),
        ("1 = 1", 1, 10),
        ("-len = 1", 1, 20),
        ("1 + (1 + (1 + 1)) = 4", 3, 40),
        ("ip[1 + (1 + 1)] = 4 ^ 3 % 2", 3, 70),
    ];
    for (text, most, all) in rows {
        let tree = parse(rt.alloc(), text).expect(&rt, "a tree");
        same(&rt, (text, need(&tree), weight(&tree)), (text, most, all));
    }
}
