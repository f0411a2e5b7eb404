//! The caller of `tap`'s page, README.md.

use super::{header, put_record, tcp};
use crate::same::same;
use listener::Mode;
use std::alloc::Global;
use std::process::Abort;
use tap::{Fault, Filter, Spec, Step, replay};

/// How many TCP packets of a capture are lost to a reader that reads after each burst of four packets.
fn lost(alloc: Global, capture: &[u8], bursts: u32) -> Result<u64, Fault> {
    let specs = [Spec {
        filter: Filter::Text(String::from_str(alloc, "tcp")?),
        snap: 96,
        capacity: 128,
        mode: Mode::Buffered,
    }];
    let mut steps = Vec::new(alloc);
    for _ in 0..bursts {
        steps.extend_from_slice(&[Step::Arrive; 4])?;
        steps.push(Step::Read(0))?;
    }
    let (reports, _record_fault) = replay(alloc, &[capture], &specs, steps.as_slice())?;
    match reports.first() {
        Some(report) => Ok(report.dropped),
        None => Ok(0),
    }
}

/// A capture of eight TCP frames.
fn eight(rt: &(impl Abort + AllocGlobal)) -> Vec<u8> {
    let mut text = header(rt);
    for sec in 0..8 {
        put_record(rt, &mut text, sec, 38, &tcp());
    }
    text
}

#[test]
fn a_slow_reader_loses_packets(rt: HostRuntime) {
    let text = eight(&rt);
    // A record has 72 bytes, so the store has room for one. Of the first burst two are lost, of the
    // second three, since its first packet finds the store full.
    same(&rt, lost(rt.alloc(), text.as_slice(), 2), Ok(5));
}
