//! A capture in memory, cut.

ghost use Rattle.std.specs.Prelude.{◌≡◌};
ghost use Rattle.pcap_cut.specs.declared.cut.End.{End};
ghost use Rattle.bpftap_c.specs.Cuts.{Cuts, ended, is_whole};
ghost use Rattle.bpftap_c.specs.Insns.{insns_of};

use crate::insns::{BpftapInsn, program_of};
use crate::memory::put_bytes;
use crate::outcome::{BpftapResult, Failure, failed};
use pcap_cut::cut::{End, cut};
use savefile::{Counted, Fault, Header, header_of};
use std::alloc::Global;

/// Whether all that a capture holds was written: it was read to its end, or to a torn or bad
/// record.
fn is_whole(end: End) -> bool
    ensures { result ≡ is_whole end }
{
    match end {
        End::Clean => true,
        End::Input(Fault::TornRecord(_)) => true,
        End::Input(Fault::BadFraction(_)) => true,
        End::Input(Fault::TooLong(_)) => true,
        End::Input(_) => false,
        End::Output(_) => false,
    }
}

/// What was put, and beside it the fault that ended the capture, if there was room.
fn ended(told: BpftapResult, end: End) -> BpftapResult
    ensures { result ≡ ended told end }
{
    match end {
        End::Input(fault) if told.fault == 0 => {
            let fault = failed(Failure::Capture(fault));
            BpftapResult {
                fault: fault.fault,
                size: told.size,
                place: fault.place,
            }
        }
        _ => told,
    }
}

/// Cuts a capture in memory by a program, as `bpftap cut` does, into the front of the caller's
/// memory. The packets before a torn or bad record are written, and that fault is returned beside
/// their size.
#[unsafe(no_mangle)]
pub extern "C" fn bpftap_cut(
    alloc: Global,
    capture: &[u8],
    insns: &[BpftapInsn],
    snap: u32,
    to: &mut [u8],
) -> BpftapResult
    ensures { Cuts capture.now (insns_of insns.now) snap to.old to.new result }
{
    let program = match program_of(insns) {
        Ok(program) => program,
        Err(fault) => return failed(Failure::Program(fault)),
    };
    let header = match header_of(capture) {
        Ok(header) => header,
        Err(fault) => return failed(Failure::Capture(fault)),
    };
    let sink = Counted::new(Vec::new(alloc));
    let cut_end = cut(alloc, capture, &program, Header { snap, ..header }, sink);
    if !is_whole(cut_end.end) {
        return failed(Failure::NoMemory);
    }
    let written = cut_end.sink.into_inner();
    let told = put_bytes(written.as_slice(), to);
    ended(told, cut_end.end)
}
