//! What captures in memory have: the caller of the page of `pcap_info`, and a source that breaks.

use crate::same::same;
use crate::split::text_of;
use pcap_info::survey::survey_capture;
use savefile::{Counted, Fault};
use std::alloc::Global;
use std::process::Abort;
use test_fixtures::captures::{ARP_RECORD, HEADER, IP_RECORD};
use test_fixtures::devices::PiecesReader;

/// How many packets a capture in memory has, and the fault that ends it.
fn packets_in(alloc: Global, text: &[u8]) -> (u64, Result<(), Fault>) {
    let survey = survey_capture(alloc, Counted::new(text));
    (survey.contents.packets, survey.read)
}

/// The first `size` bytes of a capture with an ARP packet and an IPv4 packet have this many
/// packets, and end so.
fn front_has(rt: &(impl Abort + AllocGlobal), size: usize, wanted: (u64, Result<(), Fault>)) {
    let text = text_of(rt, &[HEADER, ARP_RECORD, IP_RECORD]);
    let front = text
        .as_slice()
        .get(..size)
        .expect(rt, "there are enough bytes");
    same(rt, packets_in(rt.alloc(), front), wanted);
}

#[test]
fn a_torn_capture_is_counted_up_to_its_fault(rt: HostRuntime) {
    front_has(&rt, 84, (2, Ok(())));
    front_has(&rt, 83, (1, Err(Fault::TornRecord(1))));
    front_has(&rt, 23, (0, Err(Fault::ShortHeader)));
}

#[test]
fn a_source_that_breaks_is_a_device(rt: HostRuntime) {
    let text = text_of(&rt, &[HEADER, ARP_RECORD, IP_RECORD]);
    let left = text
        .as_slice()
        .get(..60)
        .expect(&rt, "there are enough bytes");
    let source = PiecesReader {
        left,
        piece: 7,
        breaks: true,
    };
    let survey = survey_capture(rt.alloc(), Counted::new(source));
    let seen = (survey.contents.packets, survey.read);
    same(&rt, seen, (1, Err(Fault::Device)));
    same(&rt, survey.contents.kinds.arp, 1);
}
