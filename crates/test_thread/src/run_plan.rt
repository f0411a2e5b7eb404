//! `bpftap run`: when a packet can be read, and what is printed of ends that no capture brings
//! about.

use crate::same::same;
use bpfvm::read_listing;
use cli_run::report::{report_run, report_run_in};
use cli_run::run::run;
use cli_text::Status;
use handover::{Past, pair, settle_bare};
use line_text::LineForm;
use replay::{InterfaceEnd, InterfaceReport, ListenerReport, TaskEnd};
use savefile::Counted;
use std::io::{Read, Write};
use std::process::Abort;
use std::sync::Wait;
use std::sync::atomic::AtomicU64;
use std::sync::atomic::Ordering::SeqCst;
use std::thread::Threads;
use std::time::{Clock, Duration};
use std::{io, thread};
use test_fixtures::captures::{HEADER, TCP, concat};

/// How many turns of a millisecond something is waited for.
const MAX_TURNS: u32 = 20_000;

/// Gives a capture, and ends once as many bytes were written, or it waited in vain.
#[derive(Drop)]
struct PatientCapture<'a, R> {
    rt: &'a R,
    left: &'a [u8],
    written: &'a AtomicU64,
    wanted: u64,
}

impl<R: Clock> Read for PatientCapture<'_, R> {
    fn read(&mut self, to: &mut [u8]) -> io::Result<usize> {
        let n = self.left.len().min(to.len());
        let (given, rest) = self.left.split_at(n);
        to[..n].copy_from_slice(given);
        self.left = rest;
        for _ in 0..MAX_TURNS {
            if n > 0 || self.written.load(SeqCst) >= self.wanted {
                return Ok(n);
            }
            thread::sleep(self.rt, Duration::from_millis(1));
        }
        Err(io::Error::from(io::ErrorKind::TimedOut))
    }
}

/// Takes everything, and counts the bytes.
#[derive(Drop)]
struct ByteCounter<'a> {
    written: &'a AtomicU64,
}

impl Write for ByteCounter<'_> {
    fn write(&mut self, from: &[u8]) -> io::Result<usize> {
        self.written.fetch_add(from.len() as u64, SeqCst);
        Ok(from.len())
    }

    fn flush(&mut self) -> io::Result<()> {
        Ok(())
    }
}

/// One interface of one source, which gives a capture of one packet and does not end before that is
/// written.
fn one_patient<'a, T: Abort + AllocGlobal>(
    rt: &'a T,
    text: &'a [u8],
    written: &'a AtomicU64,
) -> Vec<Vec<Counted<PatientCapture<'a, T>>>> {
    let mut sources = Vec::new(rt.alloc());
    let source = PatientCapture {
        rt,
        left: text,
        written,
        wanted: 78,
    };
    sources.push(Counted::new(source)).expect(rt, "memory");
    let mut captures = Vec::new(rt.alloc());
    captures.push(sources).expect(rt, "memory");
    captures
}

/// Replays a packet whose capture does not end before the packet is written, and answers the exit
/// status.
fn status_of(
    rt: &(impl Abort + AllocGlobal + Clock + Threads + Wait + Sync),
    listeners: &[u8],
) -> u8 {
    let alloc = rt.alloc();
    let written = AtomicU64::new(0);
    let text = concat(alloc, &[HEADER, TCP]).expect(rt, "memory");
    let captures = one_patient(rt, text.as_slice(), &written);
    let make = |_: &str| Counted::new(ByteCounter { written: &written });
    let mut out: Vec<u8> = Vec::new(alloc);
    let mut err: Vec<u8> = Vec::new(alloc);
    let (status, _) = run(rt, listeners, captures, make, &mut out, &mut err);
    status
}

#[test]
fn a_flush_and_the_letter_let_a_packet_be_read_at_once(rt: HostRuntime) {
    same(&rt, status_of(&rt, b"0 1 64 4096 2 a"), 0);
    same(&rt, status_of(&rt, b"0 0 64 4096i 2 a"), 0);
}

/// The past of a pair that was settled before anything arrived.
pub(crate) fn nothing_done(rt: &(impl Abort + AllocGlobal)) -> Past {
    let rejecting = read_listing(b"1\n6 0 0 0\n").expect(rt, "a program");
    let (link, feeder, drain) = pair(rt.alloc(), rejecting, 96, 4096).expect(rt, "a pair");
    let (feed_end, _rest) = feeder.end(&link).take_rest();
    let drain_end = drain.close(&link);
    settle_bare(link, feed_end, drain_end).past
}

/// A listener whose drain was not ended.
fn unfinished(rt: &(impl Abort + AllocGlobal)) -> ListenerReport<()> {
    ListenerReport {
        sink: (),
        sent: 24,
        received: 4,
        matched: 3,
        dropped: 1,
        written: 2,
        end: TaskEnd::Unfinished,
        past: nothing_done(rt),
    }
}

/// An interface of one such listener, whose packets were too many to count.
fn uncounted(rt: &(impl Abort + AllocGlobal)) -> Vec<InterfaceReport<u8, ()>> {
    let mut listeners = Vec::new(rt.alloc());
    listeners.push(unfinished(rt)).expect(rt, "memory");
    let report = InterfaceReport {
        end: InterfaceEnd::CountFull,
        sources: Vec::new(rt.alloc()),
        listeners,
    };
    let mut reports = Vec::new(rt.alloc());
    reports.push(report).expect(rt, "memory");
    reports
}

#[test]
fn an_end_that_is_not_reached_is_reported(rt: HostRuntime) {
    let reports = uncounted(&rt);
    let mut out: Vec<u8> = Vec::new(rt.alloc());
    let mut err: Vec<u8> = Vec::new(rt.alloc());
    let outcome = report_run(reports.as_slice(), &mut out, &mut err);
    let line = b"interface 0 listener 0 received 4 matched 3 dropped 1 written 2 Unfinished\n";
    same(
        &rt,
        (out.as_slice(), outcome.status),
        (line.as_slice(), Status::Refused),
    );
    let fault = b"bpftap: Interface 0 CountFull\n";
    same(&rt, err.as_slice(), fault.as_slice());
}

#[test]
fn an_end_that_is_not_reached_is_an_object(rt: HostRuntime) {
    let reports = uncounted(&rt);
    let mut out: Vec<u8> = Vec::new(rt.alloc());
    let mut err: Vec<u8> = Vec::new(rt.alloc());
    let outcome = report_run_in(LineForm::Json, reports.as_slice(), &mut out, &mut err);
    let object =
        b"{\"interface\":0,\"listener\":0,\"received\":4,\"matched\":3,\"dropped\":1,\"written\":2,\"end\":\"unfinished\"}\n";
    same(
        &rt,
        (out.as_slice(), outcome.status),
        (object.as_slice(), Status::Refused),
    );
    let fault = b"bpftap: Interface 0 CountFull\n";
    same(&rt, err.as_slice(), fault.as_slice());
}
