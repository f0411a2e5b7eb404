//! What is printed and reported of a split.

use crate::printer::Printer;
use crate::same::same;
use cli_split::line::line_for;
use cli_split::part::PartEnd;
use cli_split::plan::read_plan;
use cli_split::report::EndedSplit;
use cli_split::split::{SplitEnd, Stop};
use cli_text::Status;
use cli_watch::output::PrintSink;
use line_text::{LineForm, NamingForm};
use pcap_cut::cut::Tally;
use savefile::Fault;
use std::alloc::Global;
use std::process::Abort;
use test_fixtures::devices::{BreakingWriter, UnflushedWriter};

const LINES: &[u8] = b"0 a.pcap\n0 b.pcap tcp\n";

/// How a split of two parts ended, of nine packets; of which these were not written whole.
fn end_of(
    rt: &(impl Abort + AllocGlobal),
    written: [Result<(), Fault>; 2],
    end: Result<(), Stop>,
) -> SplitEnd<(), ()> {
    let mut parts = Vec::new(rt.alloc());
    for (n, written) in written.into_iter().enumerate() {
        let tally = Tally {
            read: 9,
            written: n as u64,
        };
        parts
            .push(PartEnd {
                sink: (),
                sent: 24,
                tally,
                written,
            })
            .expect(rt, "memory");
    }
    SplitEnd {
        sources: Vec::new(rt.alloc()),
        parts,
        end,
    }
}

/// What is reported of an end, the status, and what is printed into a writer.
fn told<O: PrintSink>(
    rt: &(impl Abort + AllocGlobal),
    form: LineForm,
    end: SplitEnd<(), ()>,
    out: &mut O,
) -> (Status, Vec<u8>) {
    let alloc: Global = rt.alloc();
    let mut err = Vec::new(alloc);
    let plan = read_plan(alloc, LINES).expect(rt, "each line has its form");
    let lines = plan.lines.as_slice();
    let form = NamingForm {
        form,
        is_terminal: false,
    };
    let mut line = line_for(alloc, form, lines).expect(rt, "memory");
    let split = EndedSplit {
        captures: &[],
        lines,
        end: &end,
    };
    let status = split.report(form, &mut line, out, &mut err);
    (status, err)
}

/// How the parts were written, how the reading ended, and what is printed and reported, with the
/// status.
type Case = (
    [Result<(), Fault>; 2],
    Result<(), Stop>,
    &'static str,
    &'static str,
    Status,
);

const BOTH: &str = "a.pcap 0 of 9\nb.pcap 1 of 9\n";

static CASES: [Case; 8] = [
    ([Ok(()), Ok(())], Ok(()), BOTH, "", Status::Clean),
    (
        [Err(Fault::Device), Ok(())],
        Ok(()),
        "b.pcap 1 of 9\n",
        "bpftap: Device a.pcap\n",
        Status::Failed,
    ),
    (
        [Err(Fault::Device), Err(Fault::Device)],
        Err(Stop::AtRecord(2, Fault::TornRecord(7))),
        "",
        "bpftap: Device a.pcap\nbpftap: Device b.pcap\nbpftap: Capture 2 TornRecord 7\n",
        Status::Failed,
    ),
    (
        [Ok(()), Err(Fault::CountFull)],
        Ok(()),
        "a.pcap 0 of 9\n",
        "bpftap: CountFull\n",
        Status::Refused,
    ),
    (
        [Ok(()), Ok(())],
        Err(Stop::AtRecord(0, Fault::TooLong(9))),
        BOTH,
        "bpftap: Capture 0 TooLong 9\n",
        Status::Damaged,
    ),
    (
        [Ok(()), Ok(())],
        Err(Stop::AtRecord(1, Fault::Device)),
        BOTH,
        "bpftap: Capture 1 Device\n",
        Status::Failed,
    ),
    (
        [Ok(()), Ok(())],
        Err(Stop::AtHeader(1, Fault::Version)),
        BOTH,
        "bpftap: Capture 1 Version\n",
        Status::Refused,
    ),
    // Nothing was started.
    (
        [Ok(()), Ok(())],
        Err(Stop::AtHeader(0, Fault::NotSavefile)),
        "",
        "bpftap: Capture 0 NotSavefile\n",
        Status::Refused,
    ),
];

/// Checks what is printed and reported in a case.
fn is_told(rt: &(impl Abort + AllocGlobal), case: Case) {
    let (written, end, printed, err, status) = case;
    let mut out = Vec::new(rt.alloc());
    let (found, told) = told(rt, LineForm::Text, end_of(rt, written, end), &mut out);
    same(rt, out.as_slice(), printed.as_bytes());
    same(rt, (told.as_slice(), found), (err.as_bytes(), status));
}

#[test]
fn whole_parts_are_printed_and_the_others_reported(rt: HostRuntime) {
    for case in CASES.iter() {
        is_told(&rt, *case);
    }
}

#[test]
fn standard_output_that_fails_is_reported_first(rt: HostRuntime) {
    let taken = Vec::new(rt.alloc());
    let mut out = Printer(BreakingWriter { taken, room: 10 });
    let stop = Err(Stop::AtRecord(0, Fault::TooLong(9)));
    let end = end_of(&rt, [Ok(()), Ok(())], stop);
    let (status, err) = told(&rt, LineForm::Text, end, &mut out);
    same(&rt, out.0.taken.as_slice(), b"a.pcap 0 o".as_slice());
    let wanted = b"bpftap: Device standard output\nbpftap: Capture 0 TooLong 9\n";
    same(
        &rt,
        (err.as_slice(), status),
        (wanted.as_slice(), Status::Failed),
    );
}

#[test]
fn lines_that_are_not_sent_on_are_a_device_fault(rt: HostRuntime) {
    let taken = Vec::new(rt.alloc());
    let mut out = Printer(UnflushedWriter { taken });
    let end = end_of(&rt, [Ok(()), Ok(())], Ok(()));
    let (status, err) = told(&rt, LineForm::Text, end, &mut out);
    same(&rt, out.0.taken.as_slice(), BOTH.as_bytes());
    let wanted = b"bpftap: Device standard output\n";
    same(
        &rt,
        (err.as_slice(), status),
        (wanted.as_slice(), Status::Failed),
    );
}

#[test]
fn a_part_is_an_object(rt: HostRuntime) {
    let mut out = Vec::new(rt.alloc());
    let stop = Err(Stop::AtRecord(0, Fault::TooLong(9)));
    let end = end_of(&rt, [Err(Fault::Device), Ok(())], stop);
    let (status, err) = told(&rt, LineForm::Json, end, &mut out);
    let object = b"{\"file\":\"b.pcap\",\"kept\":1,\"packets\":9}\n";
    same(&rt, out.as_slice(), object.as_slice());
    let wanted = b"bpftap: Device a.pcap\nbpftap: Capture 0 TooLong 9\n";
    same(
        &rt,
        (err.as_slice(), status),
        (wanted.as_slice(), Status::Failed),
    );
}
