//! The run whose way is marked.

ghost use Rattle.std.specs.Prelude.{◌≡◌, true};
ghost use Rattle.savefile.specs.Reader.{Lends};

use bpfvm::{Executed, Program, trace};
use cli_args::check::PacketWords;
use cli_report::HintSink;
use cli_report::failures::hint_input;
use cli_report::probe::ProbedInput;
use cli_report::stream::give_hint;
use cli_text::Status;
use cli_text::report::EscapedPath;
use cli_watch::captures::open_watched;
use cli_watch::{Screen, Watch};
use fault_report::reporting::{report_capture, report_fault, report_memory};
use fault_report::{Report, Word};
use savefile::{Fault, Reader, Source};
use std::alloc::Global;
use std::fs::Files;
use std::io::Read;

/// Goes on to the packet at a place: `Ok(false)` if there is none.
fn go_to<R: Source>(reader: &mut Reader<R>, place: u64) -> Result<bool, Fault>
    ensures { result ≡ Ok true → Lends reader.new }
{
    for _ in 0..place {
        if !reader.advance()? {
            return Ok(false);
        }
    }
    reader.advance()
}

/// Reports the fault of the capture at a path, and explains it below its path. The line of a failed
/// device has the path itself, and no file is at fault if memory is refused.
fn report_input<R, E: HintSink>(
    path: &str,
    source: &ProbedInput<R>,
    fault: Fault,
    err: &mut E,
) -> Status {
    let status = report_capture(fault, path, err);
    if fault != Fault::Device && fault != Fault::NoMemory {
        give_hint(format_args!("{}:", EscapedPath(path)), err);
    }
    hint_input(&source.inner, fault, err);
    status
}

/// Reports that a capture has no packet at a place.
fn report_no_packet<E: HintSink>(place: u64, err: &mut E) -> Status {
    let fault = Report::placed("NoPacket", Word::Number(place));
    let status = report_fault(&fault, Status::Refused, err);
    give_hint(
        "places count from 0: bpftap info prints how many packets there are",
        err,
    );
    status
}

/// The run of a program over the packet at a place of a capture; or reports why there is none.
fn run_in<R: Read + Drop, E: HintSink>(
    alloc: Global,
    program: &Program,
    packet: PacketWords<'_>,
    input: ProbedInput<R>,
    err: &mut E,
) -> Result<Vec<Executed>, Status> {
    let mut reader = match Reader::open(alloc, input) {
        Ok(reader) => reader,
        Err((source, fault)) => return Err(report_input(packet.input, &source, fault, err)),
    };
    match go_to(&mut reader, packet.place) {
        Ok(true) => {
            let found = reader.packet();
            match trace(alloc, program, found.bytes, found.len) {
                Ok(run) => Ok(run.executed),
                Err(_) => Err(report_memory(err)),
            }
        }
        Ok(false) => Err(report_no_packet(packet.place, err)),
        Err(fault) => Err(report_input(packet.input, &reader.close(), fault, err)),
    }
}

/// The run of a program over the packet that the arguments name; without one an empty run.
pub(crate) fn run_of<R: Files + AllocGlobal + Screen, E: HintSink>(
    rt: &R,
    program: &Program,
    packet: Option<PacketWords<'_>>,
    err: &mut E,
) -> Result<Vec<Executed>, Status> {
    let Some(packet) = packet else {
        return Ok(Vec::new(rt.alloc()));
    };
    let watch = Watch::new(rt, &[packet.input], false);
    let input = open_watched(rt, packet.input, &watch, err)?;
    run_in(rt.alloc(), program, packet, input, err)
}
