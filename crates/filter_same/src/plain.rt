//! A plain frame, from which a witness has the bits that its answer leaves free.

ghost use Rattle.std.specs.Prelude.{◌<◌};

/// How long the frame is, and how many bytes it had on the wire.
pub(crate) const LENGTH: u32 = 100;

/// Ethernet, and the IPv4 header without options.
const HEADERS: [u8; 34] = [
    2, 0, 0, 0, 0, 2, 2, 0, 0, 0, 0, 1, 8, 0, 0x45, 0, 0, 86, 0, 1, 0x40, 0, 64, 6, 0, 0, 192, 0,
    2, 1, 192, 0, 2, 2,
];

/// The TCP header, from port 49152 to port 80.
const TCP: [u8; 14] = [0xc0, 0, 0, 80, 0, 0, 0, 1, 0, 0, 0, 1, 0x50, 0x10];

/// The option of IPv4 that does nothing.
const NO_OPERATION: u8 = 1;

/// The frame of a TCP segment.
#[derive(Clone, Copy, Debug)]
pub(crate) struct Plain {
    /// The length of the IPv4 header in words.
    pub header: u32,
}

impl Plain {
    /// The byte at an offset; 0 after the headers.
    pub fn byte(self, offset: u32) -> u8
        requires { self.header < 16 }
    {
        let after = 14 + 4 * self.header;
        if offset == 14 {
            return 0x40 + self.header as u8;
        }
        if offset < 34 {
            return HEADERS[offset as usize];
        }
        if offset < after {
            return NO_OPERATION;
        }
        let place = offset - after;
        if place < 14 { TCP[place as usize] } else { 0 }
    }

    /// Whether a bit is set, by its name: first those of the length on the wire, then those of the
    /// bytes.
    pub fn is_set(self, name: u32) -> bool
        requires { self.header < 16 }
    {
        if name < 32 {
            return (LENGTH >> (31 - name)) % 2 == 1;
        }
        let place = name - 32;
        (self.byte(place / 8) >> (7 - place % 8)) % 2 == 1
    }
}
