//! The functions behind the commands: what they print, what they write and their exit statuses.
use crate::common::{HEAD, HEADER, Piped, SIXTIES, TCP, UDP, counted, joined, listed, same};
use bpftap_calls::{CutEnd, End, check, cut, filter, run, steps, tell};
use savefile::{Fault, Order, Unit};
use std::process::Abort;
use std::sync::Wait;
use std::thread::Threads;

/// A status and two texts, on standard output and standard error, are these.
fn says(rt: &impl Abort, status: u8, out: &[u8], err: &[u8], want: (u8, &str, &str)) {
    let (want, printed, told) = want;
    same(
        rt,
        (status, out, err),
        (want, printed.as_bytes(), told.as_bytes()),
    );
}

/// An expression too deep for the compiler.
const DEEP: &str = "1+(1+(1+(1+(1+(1+(1+(1+(1+(1+(1+(1+(1+(1+(1+(1+(1+1)))))))))))))))) = 18";

#[test]
fn check_prints_the_listing_or_the_fault(rt: HostRuntime) {
    let rows = [
        ("tcp and 80", (1, "", "bpftap: NoQualifier 8\n")),
        ("len / 0 = 1", (1, "", "bpftap: DivideByZero 6\n")),
        (DEEP, (1, "", "bpftap: TooDeep\n")),
        ("", (0, "1\n6 0 0 262144\n", "")),
        (
            "ip",
            (0, "4\n40 0 0 12\n21 0 1 2048\n6 0 0 262144\n6 0 0 0\n", ""),
        ),
    ];
    for (text, want) in rows {
        let (mut out, mut err) = (Vec::new(rt.alloc()), Vec::new(rt.alloc()));
        let status = check(rt.alloc(), text, &mut out, &mut err);
        says(&rt, status, out.as_slice(), err.as_slice(), want);
    }
}

#[test]
fn a_filter_is_a_listing_or_an_expression_and_not_both(rt: HostRuntime) {
    let rows = [
        (Some("1\n6 0 0 7"), None, 96, Ok(7), ""),
        (None, Some("tcp"), 96, Ok(96), ""),
        (None, None, 96, Ok(96), ""),
        (None, Some(""), 0, Ok(262_144), ""),
        (Some(""), Some("tcp"), 96, Err(1), "bpftap: FilterTwice\n"),
        (Some("0"), None, 96, Err(1), "bpftap: Program Empty\n"),
        (Some("2\n6 0 0 1"), None, 96, Err(1), "bpftap: Count\n"),
        (
            None,
            Some("port 65536"),
            96,
            Err(1),
            "bpftap: OutOfRange 5\n",
        ),
    ];
    let packet = joined(&rt, &[TCP]);
    for (listing, text, snap, want, told) in rows {
        let mut err = Vec::new(rt.alloc());
        let listing = listing.map(|listing: &str| listing.as_bytes());
        let found = match filter(rt.alloc(), listing, text, snap, &mut err) {
            Ok(program) => Ok(bpfvm::run(&program, packet.as_slice(), 38)),
            Err(status) => Err(status),
        };
        same(&rt, (found, err.as_slice()), (want, told.as_bytes()));
    }
}

/// Cuts a text by a listing, over a source and a sink that go well for so many calls: how it ends, what it tells, and what the sink took.
fn cut_of(
    rt: &(impl Abort + AllocGlobal),
    from: &[&str],
    listing: &str,
    calls: (u32, u32),
    form: (u32, Order, Unit),
) -> (End, u8, Vec<u8>, Vec<u8>) {
    let program = listed(rt, listing);
    let source = counted(joined(rt, from), 1, calls.0);
    let sink = counted(Vec::new(rt.alloc()), 1, calls.1);
    let (snap, order, unit) = form;
    let done: CutEnd<Piped, Piped> = cut(rt.alloc(), source, &program, snap, order, unit, sink);
    let mut err = Vec::new(rt.alloc());
    let status = tell(&done, "in", "out", &mut err);
    let CutEnd {
        source: _,
        sink,
        sent,
        end,
        ..
    } = done;
    let bytes = sink.into_inner().bytes;
    same(rt, sent, bytes.len() as u64);
    (end, status, err, bytes)
}

const FIRST: &str = "01000000 00000000 0e000000 0e000000 ffffffffffff0001020304050806";

const SECOND: &str = "02000000 00000000 0e000000 0e000000 ffffffffffff0001020304050800";

/// A header of big-endian nanoseconds at snapshot length 96, and a record of it.
const BIG: &str =
    "a1b23c4d 00020004 00000000 00000000 00000060 00000001 00000001 3b9ac9ff 00000000 0000003c";

#[test]
fn a_cut_writes_the_accepted_packets_up_to_a_fault(rt: HostRuntime) {
    const ALL: u32 = u32::MAX;
    let micro = (0, Order::Little, Unit::Micro);
    let (torn, device) = (Fault::TornRecord(1), Fault::Device);
    let whole = "1\n6 0 0 262144";
    let one = [HEADER, HEAD, TCP];
    // The listing, the form, what the source has, the calls that go well, the end, what is told, and what goes out.
    let rows = [
        (
            whole,
            (96, Order::Little, Unit::Micro),
            [BIG, "", ""],
            (ALL, ALL),
            (End::Clean, 0, ""),
            "d4c3b2a1 02000400 00000000 00000000 60000000 01000000 01000000 3f420f00 00000000 3c000000",
        ),
        (
            whole,
            (0, Order::Big, Unit::Nano),
            [HEADER, "01000000 05000000 00000000 00000000", ""],
            (ALL, ALL),
            (End::Clean, 0, ""),
            "a1b23c4d 00020004 00000000 00000000 00040000 00000001 00000001 00001388 00000000 00000000",
        ),
        (
            "4\n40 0 0 12\n21 0 1 2048\n6 0 0 5\n6 0 0 0\n",
            (10, Order::Little, Unit::Micro),
            [HEADER, FIRST, SECOND],
            (ALL, ALL),
            (End::Clean, 0, ""),
            "d4c3b2a1 02000400 00000000 00000000 0a000000 01000000 02000000 00000000 05000000 0e000000 ffffffffff",
        ),
        (
            whole,
            micro,
            one,
            (ALL, 30),
            (End::Output(device), 3, "bpftap: Device out\n"),
            "d4c3b2a1 02000400 00000000 00000000 00000400 01000000 01000000 0000",
        ),
        (
            whole,
            micro,
            one,
            (3, ALL),
            (End::Input(device), 3, "bpftap: Device in\n"),
            "",
        ),
        (
            whole,
            micro,
            [HEADER, "01000000 00000000 00000000 3c000000", "02000000"],
            (ALL, ALL),
            (End::Input(torn), 2, "bpftap: TornRecord 1\n"),
            "d4c3b2a1 02000400 00000000 00000000 00000400 01000000 01000000 00000000 00000000 3c000000",
        ),
    ];
    for (listing, form, from, calls, (want, status, line), to) in rows {
        let (end, found, told, bytes) = cut_of(&rt, &from, listing, calls, form);
        same(&rt, (end, found), (want, status));
        same(&rt, told.as_slice(), line.as_bytes());
        same(&rt, bytes.as_slice(), joined(&rt, &[to]).as_slice());
    }
}

#[test]
fn steps_prints_batches_held_messages_and_faults(rt: HostRuntime) {
    let rows = [
        (
            "32 64",
            "arrive\narrive\narrive\nread 0\narrive",
            (
                0,
                "listener 0 received 4 matched 4 dropped 1\nbatch 0\ncapture 0 place 0 time 1.000000000 len 60 kept 32\nheld\n\
                 capture 0 place 1 time 2.000000000 len 60 kept 32\ncapture 0 place 3 time 4.000000000 len 60 kept 32\n",
                "",
            ),
        ),
        (
            "32 128i less 60",
            "arrive\nread 0\nclose 0",
            (
                0,
                "listener 0 received 1 matched 1 dropped 0\nbatch 0\ncapture 0 place 0 time 1.000000000 len 60 kept 32\nheld\n",
                "",
            ),
        ),
        (
            "10 48",
            "arrive\nflush 1",
            (1, "", "bpftap: NoListener 1\n"),
        ),
        ("10 47 tcp", "", (1, "", "bpftap: Open 0 BadCapacity\n")),
        (
            "10 48 tcp and 80",
            "",
            (1, "", "bpftap: Expression 0 NoQualifier 8\n"),
        ),
        ("32 64\n32", "x", (1, "", "bpftap: Listeners 2\n")),
        ("32 64", "arrive 0", (1, "", "bpftap: Script 1\n")),
    ];
    let seven = joined(&rt, &SIXTIES);
    for (listeners, script, want) in rows {
        let (mut out, mut err) = (Vec::new(rt.alloc()), Vec::new(rt.alloc()));
        let status = steps(
            rt.alloc(),
            listeners.as_bytes(),
            script.as_bytes(),
            &[seven.as_slice()],
            &mut out,
            &mut err,
        );
        says(&rt, status, out.as_slice(), err.as_slice(), want);
    }
}

/// A run of these lines over TCP and UDP and this second capture says this; returns the sizes of the last two files, if there are any.
fn runs_so(
    rt: &(impl Abort + AllocGlobal + Threads + Wait + Sync),
    listeners: &str,
    last: &str,
    want: (u8, &str, &str),
) -> [usize; 2] {
    let alloc = rt.alloc();
    let first = counted(joined(rt, &[HEADER, HEAD, TCP, HEAD, UDP]), 9, u32::MAX);
    let last = counted(joined(rt, &[last]), 9, u32::MAX);
    let captures = vec![in alloc; first, last].expect(rt, "memory");
    let captures = vec![in alloc; captures].expect(rt, "memory");
    let make = |_: &str| counted(Vec::new(alloc), 9, u32::MAX);
    let (mut out, mut err) = (Vec::new(alloc), Vec::new(alloc));
    let lines = listeners.as_bytes();
    let (status, mut sinks) = run(rt, alloc, lines, captures, make, &mut out, &mut err);
    says(rt, status, out.as_slice(), err.as_slice(), want);
    let second = sinks.pop().map_or(0, |sink| sink.into_inner().bytes.len());
    let first = sinks.pop().map_or(0, |sink| sink.into_inner().bytes.len());
    [first, second]
}

#[test]
fn run_writes_each_listeners_file_and_prints_its_counts(rt: HostRuntime) {
    let printed = "interface 0 listener 0 received 2 matched 1 dropped 0 written 1 Clean\n\
                   interface 0 listener 1 received 2 matched 2 dropped 0 written 2 Clean\n";
    let lines = "0 0 64 1048576 2 t.pcap tcp\n0 1 0 1048576i 2 all.pcap";
    let short = "bpftap: Interface 0 Capture 1 ShortHeader\n";
    let twice = "0 0 64 4096 2 a\n0 0 64 4096 2 a";
    let bad = "0 0 64 4096 2 a\n0 0 64 4096 2 b tcp and 80";
    let fault = "bpftap: Expression 1 NoQualifier 8\n";
    let rows = [
        (lines, HEADER, (0, printed, ""), [78, 132]),
        (lines, "", (1, printed, short), [78, 132]),
        (twice, HEADER, (1, "", "bpftap: Listeners 2\n"), [0, 0]),
        (bad, HEADER, (1, "", fault), [0, 0]),
    ];
    for (listeners, last, want, sizes) in rows {
        same(&rt, runs_so(&rt, listeners, last, want), sizes);
    }
}
