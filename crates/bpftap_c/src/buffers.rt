//! Buffers of records in the caller's memory.

ghost use Rattle.std.specs.Prelude.{◌≡◌, ◌↔◌, false, ◌+◌, ◌≤◌, ◌++◌, ◌∷◌, [], length, take, IsTrue};
ghost use Rattle.std.specs.Bool.{OnTrue};
ghost use Rattle.listener.specs.Messages.{size, room};
ghost use Rattle.savefile.specs.declared.record.TheConstants.{MAX_SNAP};
ghost use Rattle.bpftap_c.specs.Buffers.{capacity, memory, messages, message_of, IsBuffer};

use crate::captures::BpftapRecord;
use listener::{fields, size};

/// The bytes of a record's fields.
pub(crate) const FIELDS_LEN: usize = 32;

/// Zero bytes, as many as a padding has at most.
const ZEROS: [u8; 8] = [0; 8];

/// A buffer of records. In C a pointer, the number of bytes that it has room for, and a number.
#[repr(C)]
pub struct BpftapBuffer<'a> {
    pub bytes: &'a mut [u8],
    /// How many of the bytes are records.
    pub size: usize,
}

/// Writes bytes into a memory from a place on.
fn write_at(to: &mut [u8], at: usize, more: &[u8])
    requires { at + length more.now ≤ length to.old }
    ensures front { take (at + length more.now) to.new ≡ take at to.old ++ more.now }
    ensures room { length to.new ≡ length to.old }
{
    to[at..at + more.len()].copy_from_slice(more);
}

impl BpftapBuffer<'_> {
    /// Puts a message of these bytes after the others if there is room for it, and returns whether
    /// there is.
    pub(crate) fn put(&mut self, capture: u32, packet: &BpftapRecord, data: &[u8]) -> bool
        requires buffer { IsBuffer self.old }
        requires writable { length data.now ≤ MAX_SNAP }
        ensures fits { IsTrue result ↔ (room (messages self.old) + size (length data.now) ≤ capacity self.old) }
        ensures stored { OnTrue result (messages self.new ≡ messages self.old ++ message_of capture packet.now data.now ∷ []) }
        ensures unchanged { result ≡ false → self.new ≡ self.old }
        ensures buffer { IsBuffer self.new }
        ensures capacity { capacity self.new ≡ capacity self.old }
        ensures memory { memory self.new ≡ memory self.old }
    {
        let at = self.size;
        let kept = data.len();
        let size = size(kept as u32);
        if size > self.bytes.len() - at {
            return false;
        }
        let header = fields(
            packet.seconds,
            packet.nanos,
            kept as u32,
            packet.wire,
            packet.place,
            capture,
        );
        write_at(self.bytes, at, &header);
        write_at(self.bytes, at + FIELDS_LEN, data);
        write_at(
            self.bytes,
            at + FIELDS_LEN + kept,
            &ZEROS[..size - FIELDS_LEN - kept],
        );
        self.size = at + size;
        true
    }
}
