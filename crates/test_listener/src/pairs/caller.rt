//! The example of the page of `handover`, README.md.

ghost use Rattle.std.specs.Prelude.{◌≡◌, []};
ghost use Rattle.listener.specs.Buffers.{filled};

use bpfvm::read_listing;
use handover::{Drain, DrainEnd, FeedEnd, Feeder, Link, Read, pair, settle};
use listener::Buffer;
use savefile::{Packet, read_all};
use std::alloc::Global;
use std::test::Fail;
use std::thread::{Threads, join, yield_now};

/// Gives all packets of a capture, and ends.
fn feed(link: &Link, mut feeder: Feeder, packets: &[Packet]) -> FeedEnd
    requires { feeder.pair ≡ link.now }
    ensures { result.pair ≡ feeder.pair }
{
    for (place, packet) in packets.iter().enumerate() {
        if feeder.counts().received < u64::MAX {
            feeder.arrive(link, 0, place as u64, packet);
        }
    }
    feeder.flush(link);
    feeder.end(link)
}

/// The bytes of a buffer's packets.
fn size(buffer: &Buffer) -> usize {
    let mut all = 0usize;
    for record in buffer.records() {
        all = all.wrapping_add(record.bytes.len());
    }
    all
}

/// Reads until the feeder has ended, adds up the bytes that were read, and closes.
fn drain_out(link: &Link, mut drain: Drain, mut spare: Buffer) -> (DrainEnd, usize)
    requires { (drain.pair ≡ link.now) × (spare ≡ filled drain.profile.capacity []) }
    ensures { result.0.pair ≡ drain.pair }
{
    let mut all = 0usize;
    for _ in 0..u64::MAX {
        match drain.read(link, spare) {
            Read::Full(buffer) => {
                all = all.wrapping_add(size(&buffer));
                spare = buffer;
                spare.clear();
            }
            Read::Nothing(buffer) => {
                spare = buffer;
                yield_now();
            }
            Read::Ended(_) => return (drain.close(link), all),
        }
    }
    (drain.close(link), all)
}

/// How many bytes of a capture's packets a reader in a thread of its own takes, and what is left for it, at most 96 of each.
fn kept_bytes<R: Threads + Sync>(
    rt: &R,
    alloc: Global,
    listing: &[u8],
    capture: &[u8],
) -> Result<usize, Fail> {
    let program = read_listing(listing)?;
    let (_header, packets, _fault) = read_all(alloc, capture)?;
    let (link, feeder, drain) = pair(alloc, program, 96, 32_768)?;
    let spare = Buffer::new(alloc, drain.capacity())?;
    let shared = &link;
    let packets = packets.as_slice();
    let (feed_end, (drain_end, all)) = join(
        rt,
        move || -> FeedEnd
            requires { feeder.pair ≡ shared.now }
            ensures { result.pair ≡ feeder.pair }
        { feed(shared, feeder, packets) },
        move || -> (DrainEnd, usize)
            requires { (drain.pair ≡ shared.now) × (spare ≡ filled drain.profile.capacity []) }
            ensures { result.0.pair ≡ drain.pair }
        { drain_out(shared, drain, spare) },
    );
    let left = settle(link, feed_end, drain_end);
    Ok(
        all.wrapping_add(size(&left.hold))
            .wrapping_add(size(&left.rest)),
    )
}

#[test]
fn the_example_of_the_page(rt: HostRuntime) -> Result<(), Fail> {
    // Ethernet frames of 14 bytes of IPv4 and of ARP, and a listing that accepts IPv4
    let capture = [
        0xd4, 0xc3, 0xb2, 0xa1, 2, 0, 4, 0, 0, 0, 0, 0, 0, 0, 0, 0, 0, 0, 4, 0, 1, 0, 0, 0, //
        1, 0, 0, 0, 0, 0, 0, 0, 14, 0, 0, 0, 14, 0, 0, 0, //
        0xff, 0xff, 0xff, 0xff, 0xff, 0xff, 0, 1, 2, 3, 4, 5, 8, 0, //
        2, 0, 0, 0, 0, 0, 0, 0, 14, 0, 0, 0, 14, 0, 0, 0, //
        0xff, 0xff, 0xff, 0xff, 0xff, 0xff, 0, 1, 2, 3, 4, 5, 8, 6,
    ];
    let listing = b"4\n40 0 0 12\n21 0 1 2048\n6 0 0 262144\n6 0 0 0\n";
    assert_eq!(rt; kept_bytes(&rt, rt.alloc(), listing, &capture)?, 14);
    Ok(())
}
