//! `explain` into an output that takes all and sends nothing on.

use crate::printer::Printer;
use crate::same::same;
use cli_answers::filter::of_expression;
use cli_answers::printing::Unprinted;
use cli_answers::{AskedFilter, PacketForm};
use cli_explain::FullPrinter;
use cli_explain::each::explain_each;
use cli_explain::one::explain_one;
use filtergen::Refusal;
use std::process::Abort;
use test_fixtures::captures::{ARP_RECORD, HEADER, concat};
use test_fixtures::devices::UnflushedWriter;

/// Whether the writer failed.
fn is_output(printed: &Result<(), Unprinted>) -> bool {
    match printed {
        Err(Unprinted::Output(_)) => true,
        _ => false,
    }
}

/// A capture of one packet, and an expression.
fn asked(rt: &(impl Abort + AllocGlobal)) -> (Vec<u8>, AskedFilter) {
    let capture = concat(rt.alloc(), &[HEADER, ARP_RECORD]).expect(rt, "memory");
    let filter = of_expression(rt.alloc(), "arp").expect(rt, "an expression");
    (capture, filter)
}

#[test]
fn lines_that_are_not_sent_on_are_a_fault(rt: HostRuntime) {
    let (capture, filter) = asked(&rt);
    let taken = Vec::new(rt.alloc());
    let mut out = Printer(UnflushedWriter { taken });
    let explained = explain_each(
        rt.alloc(),
        capture.as_slice(),
        &filter,
        PacketForm::Text,
        &mut out,
    );
    same(&rt, is_output(&explained.printed), true);
    assert!(rt; out.0.taken.ends_with(b"1 packets: 1 Yes, 0 No, 0 Abort\n"));
}

#[test]
fn a_packet_that_is_not_sent_on_is_a_fault(rt: HostRuntime) {
    let (capture, filter) = asked(&rt);
    let taken = Vec::new(rt.alloc());
    let mut out = Printer(UnflushedWriter { taken });
    let printer = FullPrinter {
        alloc: rt.alloc(),
        filter: &filter,
        program: Err(Refusal::TooLong),
        form: PacketForm::Text,
    };
    let found = explain_one(capture.as_slice(), &printer, 0, &mut out);
    same(&rt, is_output(&found.printed), true);
    assert!(rt; out.0.taken.starts_with(b"place 0 time 1.000000000 "));
}
