//! Captures in memory, read many records at a time.

ghost use Rattle.std.specs.Prelude.{◌≡◌};
ghost use Rattle.bpftap_c.specs.Spans.{span_of, stopped, PutsSpans};

use crate::batches::BpftapSpan;
use crate::captures::{BpftapReader, BpftapRecord, bpftap_next};
use crate::outcome::{BpftapResult, done};

/// Where the packet of a record lies.
fn span_of(record: &BpftapRecord) -> BpftapSpan
    ensures { result ≡ span_of record.now }
{
    BpftapSpan {
        offset: record.offset as u64,
        captured: record.captured,
        wire: record.wire,
    }
}

/// The result of a call that put this many spans, and then came to what is no record.
fn stopped(size: usize, record: &BpftapRecord) -> BpftapResult
    ensures { result ≡ stopped size record.now }
{
    BpftapResult {
        fault: record.fault,
        size,
        place: record.place as usize,
    }
}

/// Reads the next records, until there is no room for another one or one can't be read, and
/// puts where their packets lie into the front of the caller's array. The reader is moved past
/// them.
#[unsafe(no_mangle)]
pub extern "C" fn bpftap_spans(
    memory: &[u8],
    reader: &mut BpftapReader,
    spans: &mut [BpftapSpan],
) -> BpftapResult
    ensures { PutsSpans memory.now reader.old reader.new spans.old spans.new result }
{
    for place in 0..spans.len() {
        let record = bpftap_next(memory, reader);
        if record.fault != 0 {
            return stopped(place, &record);
        }
        spans[place] = span_of(&record);
    }
    done(spans.len())
}
