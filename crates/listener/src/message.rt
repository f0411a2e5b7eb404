//! Messages, which a buffer keeps.

ghost use Rattle.std.specs.Prelude.{◌≡◌, IfOk};
ghost use Rattle.listener.specs.Buffers.{message_in};

use savefile::Data;
use std::alloc::{AllocError, Global};

/// What is kept of a packet.
#[derive(Debug, Drop)]
pub struct Message {
    /// The number of its capture.
    pub capture: u32,
    /// Its place in that capture, from 0.
    pub place: u64,
    /// When it was captured: whole seconds since 1970.
    pub sec: u32,
    /// The rest of that time, in nanoseconds.
    pub nanos: u32,
    /// How many bytes it had on the wire.
    pub len: u32,
    /// The bytes that were kept.
    pub bytes: Data,
}

/// A message whose bytes lie in a buffer.
#[derive(Clone, Copy, Debug)]
pub struct Record<'a> {
    /// The number of its capture.
    pub capture: u32,
    /// Its place in that capture, from 0.
    pub place: u64,
    /// When it was captured: whole seconds since 1970.
    pub sec: u32,
    /// The rest of that time, in nanoseconds.
    pub nanos: u32,
    /// How many bytes it had on the wire.
    pub len: u32,
    /// The bytes that were kept, a slice of the buffer.
    pub bytes: &'a [u8],
}

impl Message {
    /// The message as a record, which takes no memory.
    pub fn as_record(&self) -> Record<'_>
        ensures { message_in result ≡ self.now }
    {
        Record {
            capture: self.capture,
            place: self.place,
            sec: self.sec,
            nanos: self.nanos,
            len: self.len,
            bytes: self.bytes.as_slice(),
        }
    }
}

impl Record<'_> {
    /// A message of its own, with a copy of the bytes.
    pub fn to_message(&self, alloc: Global) -> Result<Message, AllocError>
        ensures { IfOk result (λ message. message ≡ message_in self.now) }
    {
        Ok(Message {
            capture: self.capture,
            place: self.place,
            sec: self.sec,
            nanos: self.nanos,
            len: self.len,
            bytes: Data::new(Vec::from_slice(alloc, self.bytes)?),
        })
    }
}
