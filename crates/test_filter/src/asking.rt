//! The caller that the page of `filter_meaning` shows, crates/filter_meaning/README.md.

use filtergen::{Verdict, evaluate};
use filterlang::{Direction, Expr, Primitive};

/// Whether a packet that was captured so far, and had `wire` bytes, is sent to this port or from it.
pub fn is_of_port(port: u16, captured: &[u8], wire: u32) -> bool {
    let expr = Expr::Test(Primitive::Ports {
        transport: None,
        direction: Direction::SrcOrDst,
        low: port,
        high: port,
    });
    evaluate(&expr, captured, wire) == Verdict::Yes
}

#[test]
fn a_port_is_that_of_either_side(rt: HostRuntime) {
    // A UDP packet of IPv4 from port 53 to port 4,096, up to its ports.
    let frame: [u8; 38] = [
        0, 0, 0, 0, 0, 0, 0, 0, 0, 0, 0, 0, 8, 0, 69, 0, 0, 24, 0, 0, 0, 0, 64, 17, 0, 0, 192, 0,
        2, 1, 192, 0, 2, 2, 0, 53, 16, 0,
    ];
    assert!(rt; is_of_port(53, &frame, 60));
    assert!(rt; is_of_port(4096, &frame, 60));
    assert!(rt; !is_of_port(80, &frame, 60));
    assert!(rt; !is_of_port(4096, &frame[..36], 60));
}
