//! The caller of `bpfvm`'s page, README.md.

ghost use Rattle.std.specs.Prelude.{◌≡◌, min, length};
ghost use Rattle.bpfvm.specs.Machine.{verdict};

use bpfvm::{Program, read_listing, run};

/// How many captured bytes of a packet a program keeps, 0 where it rejects the packet.
fn kept(program: &Program, packet: &[u8], wire: u32) -> usize
    ensures { result ≡ min (verdict program.now packet.now wire) (length packet.now) }
{
    (run(program, packet, wire) as usize).min(packet.len())
}

/// Twenty bytes of each IPv4 packet.
const IP: &str = "4\n40 0 0 12\n21 0 1 2048\n6 0 0 20\n6 0 0 0\n";

#[test]
fn ipv4_alone_is_kept(rt: HostRuntime) {
    let program = read_listing(IP.as_bytes()).expect(&rt, "a program");
    let mut frame = [0; 60];
    assert_eq!(rt; kept(&program, &frame, 60), 0);
    frame[12] = 8;
    assert_eq!(rt; kept(&program, &frame, 60), 20);
    assert_eq!(rt; kept(&program, &frame[..14], 60), 14);
}
