//! The numbers that headers have for what they carry.

ghost use Rattle.std.specs.Prelude.{◌≡◌};
ghost use Rattle.filter_meaning.specs.Meaning.{protocol_number};

use filter_tree::headers::{IPPROTO_SCTP, IPPROTO_TCP, IPPROTO_UDP};
use filter_tree::{EthernetAddress, Transport};

/// The Ethernet address of all hosts.
pub const BROADCAST: EthernetAddress = EthernetAddress { octets: [255; 6] };

/// The protocol number of IPv4.
pub fn protocol_number(transport: Transport) -> u32
    ensures { result ≡ protocol_number transport }
{
    match transport {
        Transport::Tcp => IPPROTO_TCP,
        Transport::Udp => IPPROTO_UDP,
        Transport::Sctp => IPPROTO_SCTP,
    }
}
