//! A captured packet.

ghost use Rattle.std.specs.Prelude.{◌≡◌, IfOk};

use std::alloc::{AllocError, Global};
use std::marker::Model;

/// The bytes of a packet that were captured. A contract sees them as a list.
#[derive(Debug, Drop)]
pub struct Data {
    bytes: Vec<u8>,
}

impl Model for Data {
    ghost use Rattle.std.specs.Prelude.{List, ℕ};

    ghost Value = { List ℕ };

    ghost view = { λ d. d.bytes.items };
}

impl Data {
    /// The bytes of a vector. This takes no memory.
    pub fn new(bytes: Vec<u8>) -> Data
        ensures { result ≡ bytes.items }
    {
        Data { bytes }
    }

    /// Gives the vector back. This takes no memory.
    pub fn into_vec(self) -> Vec<u8>
        ensures { result.items ≡ self }
    {
        let Data { bytes } = self;
        bytes
    }

    /// The bytes as a slice.
    pub fn as_slice(&self) -> &[u8]
        ensures { result.now ≡ self.now }
    {
        self.bytes.as_slice()
    }
}

/// A packet as a capture has it.
#[derive(Debug, Drop)]
pub struct Packet {
    /// When it was captured: whole seconds since 1970.
    pub sec: u32,
    /// The rest of that time, in nanoseconds: below 1,000,000,000 in a packet that was read.
    pub nanos: u32,
    /// How many bytes it had on the wire.
    pub len: u32,
    /// The bytes that were captured.
    pub bytes: Data,
}

/// A packet whose bytes lie elsewhere, as in the memory of a reader: what a `&str` is to a
/// `String`. A contract sees it as the packet that an owned one of these parts is.
#[derive(Debug, Drop)]
pub struct PacketRef<'a> {
    /// When it was captured: whole seconds since 1970.
    pub sec: u32,
    /// The rest of that time, in nanoseconds: below 1,000,000,000 in a packet that was read.
    pub nanos: u32,
    /// How many bytes it had on the wire.
    pub len: u32,
    /// The bytes that were captured.
    pub bytes: &'a [u8],
}

impl<'a> Model for PacketRef<'a> {
    ghost use Rattle.savefile.specs.declared.packet.Packet.{Packet};

    ghost Value = { Packet };

    ghost view = { λ p. record { sec = p.sec; nanos = p.nanos; len = p.len; bytes = p.bytes.now } };
}

impl Packet {
    /// Lends the packet, without a copy.
    pub fn as_ref(&self) -> PacketRef<'_>
        ensures { result ≡ self.now }
    {
        PacketRef {
            sec: self.sec,
            nanos: self.nanos,
            len: self.len,
            bytes: self.bytes.as_slice(),
        }
    }
}

impl PacketRef<'_> {
    /// A packet of its own, with a copy of the bytes.
    pub fn to_packet(&self, alloc: Global) -> Result<Packet, AllocError>
        ensures { IfOk result (λ packet. packet ≡ self.now) }
    {
        Ok(Packet {
            sec: self.sec,
            nanos: self.nanos,
            len: self.len,
            bytes: Data::new(Vec::from_slice(alloc, self.bytes)?),
        })
    }
}
