//! The messages of a batch.

ghost use Rattle.std.specs.Prelude.{◌≡◌};
ghost use Rattle.bpftap_c.specs.Buffers.{text_of};
ghost use Rattle.bpftap_c.specs.Messages.{no_message, GivesMessage, LiesWithin};

use crate::buffers::{BpftapBuffer, FIELDS_LEN};
use byteorder::{ByteOrder, LittleEndian};
use listener::size;

/// A message of a batch.
#[repr(C)]
#[derive(Clone, Copy, Debug, PartialEq, Eq)]
pub struct BpftapMessage {
    /// Where its bytes begin in the batch.
    pub offset: usize,
    /// Its place in its capture.
    pub place: u64,
    /// 0, or that there is no further message.
    pub fault: u32,
    /// The number of its capture.
    pub capture: u32,
    pub seconds: u32,
    pub nanos: u32,
    /// How many bytes were kept of it.
    pub captured: u32,
    /// How many bytes the packet had on the wire.
    pub wire: u32,
}

fn no_message(offset: usize) -> BpftapMessage
    ensures { result ≡ no_message offset }
{
    BpftapMessage {
        offset,
        place: 0,
        fault: 4,
        capture: 0,
        seconds: 0,
        nanos: 0,
        captured: 0,
        wire: 0,
    }
}

/// Reads the message whose record begins in a text at `offset`, and moves this past the record.
fn next_message(text: &[u8], offset: &mut usize) -> BpftapMessage
    ensures message { GivesMessage text.now offset.old offset.new result }
    ensures within { LiesWithin text.now offset.old offset.new result }
{
    let at = *offset;
    if at > text.len() || text.len() - at < FIELDS_LEN {
        return no_message(at);
    }
    let (_before, rest) = text.split_at(at);
    let captured = LittleEndian::read_u32(&rest[8..]);
    let size = size(captured);
    if size > rest.len() {
        return no_message(at);
    }
    *offset = at + size;
    BpftapMessage {
        offset: at + FIELDS_LEN,
        place: LittleEndian::read_u64(&rest[16..]),
        fault: 0,
        capture: LittleEndian::read_u32(&rest[24..]),
        seconds: LittleEndian::read_u32(rest),
        nanos: LittleEndian::read_u32(&rest[4..]),
        captured,
        wire: LittleEndian::read_u32(&rest[12..]),
    }
}

/// Reads the next message of a batch, and moves `offset` past its record. Whatever the bytes of the
/// batch are, a message lies within its first `size` bytes, or in all of them if there are fewer.
#[unsafe(no_mangle)]
pub extern "C" fn bpftap_listener_next(
    batch: &BpftapBuffer<'_>,
    offset: &mut usize,
) -> BpftapMessage
    ensures message { GivesMessage (text_of batch.now) offset.old offset.new result }
    ensures within { LiesWithin (text_of batch.now) offset.old offset.new result }
{
    let size = batch.size.min(batch.bytes.len());
    next_message(&batch.bytes[..size], offset)
}
