//! What helps at the name of a protocol over ports.

use crate::advice::{Advice, Found};
use filter_spots::Spot;
use std::alloc::Global;

/// A protocol over ports, and its usual port.
struct Service {
    name: &'static [u8],
    written: &'static str,
}

static SERVICES: [Service; 27] = [
    Service {
        name: b"dns",
        written: "port 53",
    },
    Service {
        name: b"http",
        written: "tcp port 80",
    },
    Service {
        name: b"https",
        written: "tcp port 443",
    },
    Service {
        name: b"tls",
        written: "tcp port 443",
    },
    Service {
        name: b"ssl",
        written: "tcp port 443",
    },
    Service {
        name: b"quic",
        written: "udp port 443",
    },
    Service {
        name: b"ssh",
        written: "tcp port 22",
    },
    Service {
        name: b"ftp",
        written: "tcp port 21",
    },
    Service {
        name: b"telnet",
        written: "tcp port 23",
    },
    Service {
        name: b"smtp",
        written: "tcp port 25",
    },
    Service {
        name: b"ntp",
        written: "udp port 123",
    },
    Service {
        name: b"dhcp",
        written: "udp portrange 67-68",
    },
    Service {
        name: b"bootp",
        written: "udp portrange 67-68",
    },
    Service {
        name: b"snmp",
        written: "udp port 161",
    },
    Service {
        name: b"mdns",
        written: "udp port 5353",
    },
    Service {
        name: b"sip",
        written: "port 5060",
    },
    Service {
        name: b"rdp",
        written: "tcp port 3389",
    },
    Service {
        name: b"rip",
        written: "udp port 520",
    },
    Service {
        name: b"smb",
        written: "tcp port 445",
    },
    Service {
        name: b"ldap",
        written: "tcp port 389",
    },
    Service {
        name: b"tftp",
        written: "udp port 69",
    },
    Service {
        name: b"syslog",
        written: "udp port 514",
    },
    Service {
        name: b"imap",
        written: "tcp port 143",
    },
    Service {
        name: b"pop",
        written: "tcp port 110",
    },
    Service {
        name: b"bgp",
        written: "tcp port 179",
    },
    Service {
        name: b"mysql",
        written: "tcp port 3306",
    },
    Service {
        name: b"kerberos",
        written: "port 88",
    },
];

/// The usual port of a protocol, if it has one.
pub(crate) fn port_named(name: &[u8]) -> Option<&'static str> {
    let service = SERVICES.iter().find(|service| service.name == name)?;
    let (_, number) = service.written.rsplit_once("port ")?;
    Some(number)
}

/// What helps at the name of a protocol over ports.
pub(crate) fn of_service<'a>(alloc: Global, spot: Spot<'a>) -> Found<'a> {
    let Some(service) = SERVICES.iter().find(|service| service.name == spot.word()) else {
        return Ok(None);
    };
    match spot.without_name() {
        Some(gap) if !spot.takes_address() && gap.takes(alloc, service.written)? => {
            Ok(Some(Advice::Service(service.written, spot.word())))
        }
        _ => Ok(None),
    }
}
