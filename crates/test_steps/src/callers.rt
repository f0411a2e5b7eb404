//! The callers that the pages of `line_text`, `cli_text`, `tap_steps`, `tap_text`, `cli_steps` and
//! `tap_picture` show, crates/NAME/README.md.

use crate::same::same;
use cli_steps::steps::steps;
use cli_text::Status;
use cli_text::report::{fault_status, report_line};
use line_text::fields::{first_line, number, split_once};
use line_text::sending::send;
use line_text::{Line, LineFault};
use listener::Mode;
use savefile::Fault;
use std::alloc::Global;
use std::io;
use std::io::Write;
use std::process::Abort;
use tap::{Filter, Spec, Step, trace};
use tap_picture::write_picture;
use tap_steps::{MAX_CAPTURES, PlaylistFault, read_playlist};
use tap_text::script::read_script;
use test_fixtures::captures::{HEADER, TCP, UDP, concat};

/// The port of a line `NAME PORT`.
fn port_of(line: &[u8]) -> Option<u64> {
    let (_name, port) = split_once(line, b' ')?;
    number(port, 65_535)
}

/// Writes a line for each line of a text. Where that fails, `out` took a beginning of this and no more.
fn print_ports<O: Write>(text: &[u8], out: &mut O) -> io::Result<()> {
    let mut line = Line::new();
    let mut rest = text;
    while !rest.is_empty() {
        let (first, after) = first_line(rest);
        line.clear();
        match port_of(first) {
            Some(port) => writeln!(line, "port {port}")?,
            None => writeln!(line, "no port")?,
        }
        send(line.as_bytes(), out)?;
        rest = after;
    }
    Ok(())
}

/// Reports the fault of a capture, if it has one, and returns the exit status.
fn end<E: Write>(read: Result<(), Fault>, err: &mut E) -> io::Result<Status> {
    match read {
        Ok(()) => Ok(Status::Clean),
        Err(fault) => {
            report_line(fault, err)?;
            Ok(fault_status(fault))
        }
    }
}

/// How many packets captures have for steps, nothing where the captures are too many.
fn packets(alloc: Global, captures: &[&[u8]]) -> Result<Option<usize>, PlaylistFault> {
    if captures.len() > MAX_CAPTURES {
        return Ok(None);
    }
    let playlist = read_playlist(alloc, captures)?;
    Ok(Some(playlist.arrivals.len()))
}

/// How many steps a script has.
fn step_count(alloc: Global, script: &[u8]) -> Result<usize, LineFault> {
    Ok(read_script(alloc, script)?.len())
}

/// What is printed of one listener that nobody reads, over a capture, or why there is nothing.
fn printed(alloc: Global, capture: &[u8]) -> Result<Vec<u8>, Vec<u8>> {
    let mut out: Vec<u8> = Vec::new(alloc);
    let mut err: Vec<u8> = Vec::new(alloc);
    match steps(
        alloc,
        b"96 4096 tcp",
        b"arrive\narrive",
        &[capture],
        &mut out,
        &mut err,
    ) {
        0 => Ok(out),
        _ => Err(err),
    }
}

/// The picture of a replay of one capture; nothing where the replay is refused.
fn drawn(
    alloc: Global,
    capture: &[u8],
    specs: &[Spec],
    steps: &[Step],
) -> io::Result<Option<Vec<u8>>> {
    let captures = [capture];
    let Ok(trace) = trace(alloc, captures.as_slice(), specs, steps) else {
        return Ok(None);
    };
    let mut text = Vec::new(alloc);
    write_picture(specs, steps, &trace, &mut text)?;
    Ok(Some(text))
}

/// A capture of a TCP and a UDP frame.
fn two(rt: &(impl Abort + AllocGlobal)) -> Vec<u8> {
    concat(rt.alloc(), &[HEADER, TCP, UDP]).expect(rt, "memory")
}

#[test]
fn ports_are_printed_line_by_line(rt: HostRuntime) {
    let mut out: Vec<u8> = Vec::new(rt.alloc());
    let text = b"http 80\nssh\nbig 65536\nlast 007";
    print_ports(text, &mut out).expect(&rt, "memory");
    let ports = b"port 80\nno port\nno port\nport 7\n";
    same(&rt, out.as_slice(), ports.as_slice());
}

#[test]
fn a_fault_of_a_capture_is_reported(rt: HostRuntime) {
    let mut err: Vec<u8> = Vec::new(rt.alloc());
    let status = end(Err(Fault::TornRecord(59)), &mut err).expect(&rt, "memory");
    assert!(rt; status == Status::Damaged);
    same(&rt, err.as_slice(), b"bpftap: TornRecord 59\n".as_slice());
    let status = end(Ok(()), &mut err).expect(&rt, "memory");
    assert!(rt; status == Status::Clean);
}

#[test]
fn packets_of_captures_are_counted(rt: HostRuntime) {
    let text = two(&rt);
    let count = packets(rt.alloc(), &[text.as_slice(), text.as_slice()]).expect(&rt, "memory");
    assert!(rt; count == Some(4));
}

#[test]
fn steps_of_a_script_are_counted(rt: HostRuntime) {
    let count = step_count(rt.alloc(), b"arrive\nread 0").expect(&rt, "memory");
    assert!(rt; count == 2);
}

#[test]
fn a_listener_is_printed(rt: HostRuntime) {
    let text = two(&rt);
    let out = printed(rt.alloc(), text.as_slice()).expect(&rt, "a replay");
    let wanted =
        b"listener 0 received 2 matched 1 dropped 0\nheld\ncapture 0 place 0 time 1.000000000 len 38 kept 38\n";
    same(&rt, out.as_slice(), wanted.as_slice());
}

#[test]
fn a_refusal_is_reported(rt: HostRuntime) {
    let err = printed(rt.alloc(), b"").err().expect(&rt, "a refusal");
    let fault = b"bpftap: Capture 0 ShortHeader\n";
    same(&rt, err.as_slice(), fault.as_slice());
}

/// The picture of a replay of one capture to one listener, if there is one.
fn picture_of(rt: &(impl Abort + AllocGlobal), capture: &[u8]) -> Option<Vec<u8>> {
    let specs = [Spec {
        filter: Filter::Text(String::from_str(rt.alloc(), "tcp").expect(rt, "memory")),
        snap: 96,
        capacity: 128,
        mode: Mode::Buffered,
    }];
    let steps = [Step::Arrive, Step::Flush(0)];
    drawn(rt.alloc(), capture, &specs, &steps).expect(rt, "memory")
}

#[test]
fn a_replay_is_drawn(rt: HostRuntime) {
    let text = two(&rt);
    let picture = picture_of(&rt, text.as_slice()).expect(&rt, "a picture");
    assert!(rt; picture.starts_with(b"<svg "));
}

#[test]
fn a_replay_that_is_refused_is_not_drawn(rt: HostRuntime) {
    assert!(rt; picture_of(&rt, b"").is_none());
}
