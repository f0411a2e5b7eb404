//! Frames as hexadecimal text, a stream that gives and takes little at a time and fails, and a comparison.
//!
//! What is refused memory ends the test, so that the proof of a caller has no way out with values to drop.
use bpfvm::{Program, read_listing};
use savefile::{Counted, Data, Packet};
use std::alloc::AllocError;
use std::fmt::Debug;
use std::io;
use std::io::{Read, Write};
use std::process::Abort;

/// A file header: little-endian, microseconds, snapshot length 262,144.
pub const HEADER: &str = "d4c3b2a1 02000400 00000000 00000000 00000400 01000000";

/// A UDP packet of 38 bytes, from 10.0.0.1 to 10.0.0.2, port 53 to port 53.
pub const UDP: &str =
    "ffffffffffff000102030405 0800 4500001800000000 40110000 0a000001 0a000002 00350035";

/// The same frame with TCP as its protocol.
pub const TCP: &str =
    "ffffffffffff000102030405 0800 4500001800000000 40060000 0a000001 0a000002 00350035";

/// An ARP request of 42 bytes, from 10.0.0.1 for 10.0.0.2.
pub const ARP: &str =
    "ffffffffffff000102030405 0806 0001080006040001 000102030405 0a000001 000000000000 0a000002";

/// The head of a record of a frame of 38 bytes at second 1.
pub const HEAD: &str = "01000000 00000000 26000000 26000000";

/// A header and packets of 60 zero bytes at the seconds 1 to 7; a z is their data.
pub const SIXTIES: [&str; 8] = [
    HEADER,
    "01000000 00000000 3c000000 3c000000 z",
    "02000000 00000000 3c000000 3c000000 z",
    "03000000 00000000 3c000000 3c000000 z",
    "04000000 00000000 3c000000 3c000000 z",
    "05000000 00000000 3c000000 3c000000 z",
    "06000000 00000000 3c000000 3c000000 z",
    "07000000 00000000 3c000000 3c000000 z",
];

/// Adds the bytes that hexadecimal digits name. A z is 60 zero bytes; all else is left out.
fn add_hex(out: &mut Vec<u8>, text: &str) -> Result<(), AllocError> {
    let mut half = None;
    for letter in text.as_bytes() {
        let low = match *letter {
            b'0'..=b'9' => *letter - b'0',
            b'a'..=b'f' => *letter - b'a' + 10,
            b'z' => {
                out.extend_from_slice(&[0u8; 60])?;
                continue;
            }
            _ => continue,
        };
        match half {
            None => half = Some(low),
            Some(high) => {
                out.push(u8::wrapping_mul(high, 16) | low)?;
                half = None;
            }
        }
    }
    Ok(())
}

/// The bytes that the hexadecimal digits of several texts name.
pub fn joined(rt: &(impl Abort + AllocGlobal), texts: &[&str]) -> Vec<u8> {
    let mut out = Vec::new(rt.alloc());
    for text in texts {
        add_hex(&mut out, text).expect(rt, "memory");
    }
    out
}

/// A text so many times.
pub fn repeated(rt: &(impl Abort + AllocGlobal), text: &str, times: u32) -> String {
    let mut out = String::new(rt.alloc());
    for _ in 0..times {
        out.push_str(text).expect(rt, "memory");
    }
    out
}

/// A program that reads so.
pub fn listed(rt: &(impl Abort + AllocGlobal), text: &str) -> Program {
    read_listing(text.as_bytes()).expect(rt, "a program")
}

/// A packet of second 2 and 3,000 nanoseconds, with these bytes of 60.
pub fn packet(rt: &(impl Abort + AllocGlobal), text: &str) -> Packet {
    Packet {
        sec: 2,
        nanos: 3_000,
        len: 60,
        bytes: Data::new(joined(rt, &[text])),
    }
}

/// What was found is what is wanted.
pub fn same<T: Copy + Debug + PartialEq>(rt: &impl Abort, found: T, wanted: T) {
    assert_eq!(rt; found, wanted);
}

/// Gives its bytes, and takes further ones, in pieces; after so many calls it fails.
#[derive(Drop)]
pub struct Stream {
    pub bytes: Vec<u8>,
    pub at: usize,
    pub size: usize,
    pub calls: u32,
}

impl Read for Stream {
    fn read(&mut self, to: &mut [u8]) -> io::Result<usize> {
        if self.calls == 0 {
            return Err(io::Error::from(io::ErrorKind::Other));
        }
        self.calls -= 1;
        let left = self.bytes.get(self.at..).unwrap_or(&[]);
        let count = self.size.min(to.len()).min(left.len());
        to[..count].copy_from_slice(&left[..count]);
        self.at = self.at.wrapping_add(count);
        Ok(count)
    }
}

impl Write for Stream {
    fn write(&mut self, from: &[u8]) -> io::Result<usize> {
        if self.calls == 0 {
            return Err(io::Error::from(io::ErrorKind::Other));
        }
        self.calls -= 1;
        let count = self.size.min(from.len());
        self.bytes.extend_from_slice(&from[..count])?;
        Ok(count)
    }

    fn flush(&mut self) -> io::Result<()> {
        Ok(())
    }
}

pub type Piped = Counted<Stream>;

/// A source or a sink over a stream of these bytes.
pub fn counted(bytes: Vec<u8>, size: usize, calls: u32) -> Piped {
    let at = 0;
    Counted::new(Stream {
        bytes,
        at,
        size,
        calls,
    })
}
