//! Captures that are watched while they are read, in pieces of every size.

ghost use Rattle.std.specs.Prelude.{◌<◌};

use crate::same::same;
use cli_watch::frames::{FrameCounts, FrameWalk};
use cli_watch::progress::ProgressText;
use std::process::Abort;
use test_fixtures::captures::{ARP_RECORD, HEADER, concat};

/// The record of an IPv6 frame of 20 bytes.
const IPV6_RECORD: &str =
    "01000000 00000000 14000000 3c000000 ffffffffffff 000102030405 86dd 600000000000";

/// The record of a frame with a VLAN tag, of which the bytes up to its type were captured.
const VLAN_RECORD: &str = "01000000 00000000 0e000000 3c000000 ffffffffffff 000102030405 8100";

/// The record of such a frame, of which one byte less was captured.
const SHORT_RECORD: &str = "01000000 00000000 0d000000 3c000000 ffffffffffff 000102030405 81";

/// The record of a frame of which no byte was captured.
const EMPTY_RECORD: &str = "01000000 00000000 00000000 3c000000";

/// A record whose fraction is a whole second.
const BAD_RECORD: &str = "01000000 40420f00 00000000 3c000000";

/// The counts of a text that comes in pieces of this size.
fn counts_in_pieces(text: &[u8], size: usize) -> FrameCounts
    requires { 0 < size }
{
    let mut walk = FrameWalk::new();
    let mut counts = FrameCounts::NONE;
    for piece in text.chunks(size) {
        counts = counts.plus(walk.pass(piece));
    }
    counts
}

/// The counts of a text are these, whatever the pieces are that it comes in.
fn counts_are(rt: &impl Abort, text: &[u8], frames: u64, unseen: u64) {
    let wanted = FrameCounts { frames, unseen };
    for size in 1..text.len() + 1 {
        same(rt, counts_in_pieces(text, size), wanted);
    }
}

#[test]
fn whole_frames_are_counted(rt: HostRuntime) {
    let records = [
        HEADER,
        ARP_RECORD,
        IPV6_RECORD,
        EMPTY_RECORD,
        VLAN_RECORD,
        SHORT_RECORD,
        IPV6_RECORD,
    ];
    let text = concat(rt.alloc(), &records).expect(&rt, "memory");
    counts_are(&rt, text.as_slice(), 6, 3);
    // The last frame is torn.
    counts_are(&rt, &text.as_slice()[..text.len().saturating_sub(1)], 5, 2);
}

#[test]
fn a_bad_record_ends_the_frames(rt: HostRuntime) {
    let records = [HEADER, IPV6_RECORD, ARP_RECORD, BAD_RECORD, IPV6_RECORD];
    let text = concat(rt.alloc(), &records).expect(&rt, "memory");
    counts_are(&rt, text.as_slice(), 2, 1);
}

#[test]
fn a_refused_header_has_no_frames(rt: HostRuntime) {
    let text = concat(rt.alloc(), &["ff", HEADER, IPV6_RECORD]).expect(&rt, "memory");
    counts_are(&rt, text.as_slice(), 0, 0);
}

/// The text of the progress is this.
fn reads_as(rt: &(impl Abort + AllocGlobal), text: ProgressText, wanted: &str) {
    let shown = format!(in rt.alloc(); "{text}").expect(rt, "memory");
    assert_eq!(rt; shown.as_str(), wanted);
}

#[test]
fn texts_of_the_progress(rt: HostRuntime) {
    let text = ProgressText {
        read: 12_499_999_999,
        total: 50_000_000_000,
        seconds: 18,
        packets: 3_100_000,
    };
    reads_as(&rt, text, "12.4 of 50.0 GB, 18 s, 3.1 M packets");
    let text = ProgressText {
        read: 0,
        total: 999,
        seconds: 1,
        packets: 0,
    };
    reads_as(&rt, text, "0.0 of 0.9 kB, 1 s");
    let text = ProgressText {
        read: u64::MAX,
        total: u64::MAX,
        seconds: 100_000,
        packets: 999,
    };
    reads_as(
        &rt,
        text,
        "18446744.0 of 18446744.0 TB, 100000 s, 999 packets",
    );
}
