//! The caller of `listener`'s page, README.md.

ghost use Rattle.std.specs.Prelude.{◌≡◌, []};
ghost use Rattle.listener.specs.Buffers.{filled};

use bpfvm::read_listing;
use listener::{Buffer, Fed, Listener, Read};
use savefile::read_all;
use std::alloc::Global;
use std::test::Fail;

/// Reads the hold, adds up the bytes that were kept of its packets, and gives an empty buffer back for the next read.
fn read_hold(tap: &mut Listener, spare: Buffer, kept: &mut usize) -> Buffer
    requires { spare ≡ filled tap.old.terms.capacity [] }
    ensures { result ≡ filled tap.new.terms.capacity [] }
{
    let mut buffer = match tap.read(spare) {
        Read::Full(buffer) => buffer,
        Read::Nothing(buffer) => return buffer,
    };
    for record in buffer.records() {
        *kept = kept.wrapping_add(record.bytes.len());
    }
    buffer.clear();
    buffer
}

/// How many bytes a tap keeps of a capture's packets, at most 96 of each, where it is read whenever its hold is full.
fn kept_bytes(alloc: Global, listing: &[u8], capture: &[u8]) -> Result<usize, Fail> {
    let program = read_listing(listing)?;
    let (_header, packets, _fault) = read_all(alloc, capture)?;
    let mut tap = Listener::open(alloc, program, 96, 32_768)?;
    let mut spare = Buffer::new(alloc, tap.capacity())?;
    let mut kept = 0;
    for (place, packet) in packets.iter().enumerate() {
        if tap.counts().received == u64::MAX {
            break;
        }
        if tap.arrive(0, place as u64, packet) == Fed::Rotated {
            spare = read_hold(&mut tap, spare, &mut kept);
        }
    }
    tap.flush();
    read_hold(&mut tap, spare, &mut kept);
    Ok(kept)
}

#[test]
fn the_example_of_the_page(rt: HostRuntime) -> Result<(), Fail> {
    // Ethernet frames of 14 bytes of IPv4 and of ARP, and a listing that accepts IPv4
    let capture = [
        0xd4, 0xc3, 0xb2, 0xa1, 2, 0, 4, 0, 0, 0, 0, 0, 0, 0, 0, 0, 0, 0, 4, 0, 1, 0, 0, 0, //
        1, 0, 0, 0, 0, 0, 0, 0, 14, 0, 0, 0, 14, 0, 0, 0, //
        0xff, 0xff, 0xff, 0xff, 0xff, 0xff, 0, 1, 2, 3, 4, 5, 8, 0, //
        2, 0, 0, 0, 0, 0, 0, 0, 14, 0, 0, 0, 14, 0, 0, 0, //
        0xff, 0xff, 0xff, 0xff, 0xff, 0xff, 0, 1, 2, 3, 4, 5, 8, 6,
    ];
    let listing = b"4\n40 0 0 12\n21 0 1 2048\n6 0 0 262144\n6 0 0 0\n";
    assert_eq!(rt; kept_bytes(rt.alloc(), listing, &capture)?, 14);
    Ok(())
}
