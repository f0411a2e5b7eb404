//! The frames of a capture, counted as its bytes pass in any pieces.

ghost use Rattle.std.specs.Prelude.{◌≡◌, ◌≤◌, ◌<◌, ◌+◌, ◌-◌, ◌^◌, true, false, length, min};
ghost use Rattle.cli_watch.specs.Frames.{is_unseen};

use byteorder::{BigEndian, ByteOrder, LittleEndian};
use pcap_info::contents::{FrameKind, kind_of};
use savefile::{Fault, HEADER_LEN, Header, Order, RECORD_HEADER_LEN, header_of, record_of};

/// The bytes of the header of an Ethernet frame, whose last two are its type.
const ETHERNET_LEN: usize = 14;

/// How many bytes of a record are looked at: its header, and that of its frame.
const FRONT_LEN: usize = RECORD_HEADER_LEN + ETHERNET_LEN;

/// How many frames there are, and into how many of these no filter looks: IPv6, or with a VLAN tag.
#[derive(Clone, Copy, Debug, PartialEq, Eq)]
pub struct FrameCounts {
    pub frames: u64,
    pub unseen: u64,
}

impl FrameCounts {
    /// Of no frame.
    pub const NONE: FrameCounts = FrameCounts {
        frames: 0,
        unseen: 0,
    };

    /// The counts of the frames of both, each up to 2^64 - 1.
    pub fn plus(self, other: FrameCounts) -> FrameCounts
        ensures frames { result.frames ≡ min (self.frames + other.frames) (2 ^ 64 - 1) }
        ensures unseen { result.unseen ≡ min (self.unseen + other.unseen) (2 ^ 64 - 1) }
    {
        FrameCounts {
            frames: self.frames.saturating_add(other.frames),
            unseen: self.unseen.saturating_add(other.unseen),
        }
    }

    /// Counts one frame more.
    fn count(&mut self, frame_is_unseen: bool) {
        self.frames = self.frames.saturating_add(1);
        if frame_is_unseen {
            self.unseen = self.unseen.saturating_add(1);
        }
    }
}

/// Whether a frame carries IPv6 or has a VLAN tag, as its type says, if that was captured.
pub fn is_unseen(frame: &[u8]) -> bool
    ensures { result ≡ is_unseen frame.now }
{
    match kind_of(frame) {
        FrameKind::Ipv6 | FrameKind::Vlan => true,
        FrameKind::Ipv4 | FrameKind::Arp | FrameKind::Other => false,
    }
}

/// What a walk meets next in a capture.
#[derive(Clone, Copy, Debug)]
enum Next {
    /// The header of the file.
    FileHeader,
    /// A record.
    Record(Header),
    /// This many further bytes of a frame, which is unseen or not.
    Frame(Header, usize, bool),
    /// No further frame: the header is refused, or a record is bad.
    Nothing,
}

/// The first bytes of the file's header, or of a record, that did not come in one piece.
#[derive(Clone, Copy, Debug)]
struct Front {
    bytes: [u8; FRONT_LEN],
    /// How many of them came.
    came: usize,
}

impl Front {
    const EMPTY: Front = Front {
        bytes: [0; FRONT_LEN],
        came: 0,
    };

    fn as_slice(&self) -> &[u8]
        ensures { 0 < self.now.came → 0 < length result.now }
    {
        &self.bytes[..self.came.min(FRONT_LEN)]
    }

    /// Adds what is missing of `size` bytes, and returns the bytes after that.
    fn gather<'b>(&mut self, size: usize, bytes: &'b [u8]) -> &'b [u8]
        requires { 0 < length bytes.now }
        ensures { length result.now < length bytes.now }
    {
        let missing = size.saturating_sub(self.came);
        let (taken, rest) = bytes.split_at(missing.max(1).min(bytes.len()));
        for byte in taken {
            if let Some(slot) = self.bytes.get_mut(self.came) {
                *slot = *byte;
                self.came += 1;
            }
        }
        rest
    }
}

/// A walk over the bytes of a capture, which come in any pieces. It counts the frames of the
/// records that came whole, up to the first bad one, as `savefile` reads them.
#[derive(Debug, Drop)]
pub struct FrameWalk {
    next: Next,
    front: Front,
}

impl FrameWalk {
    /// Begins before the first byte of a capture.
    pub fn new() -> FrameWalk {
        FrameWalk {
            next: Next::FileHeader,
            front: Front::EMPTY,
        }
    }

    /// Goes over the next bytes, and counts the frames that end in them.
    pub fn pass(&mut self, bytes: &[u8]) -> FrameCounts {
        let mut counts = FrameCounts::NONE;
        let mut rest = bytes;
        while !rest.is_empty() {
            rest = self.step(rest, &mut counts);
        }
        counts
    }

    /// Goes over some of the next bytes, and returns the others.
    fn step<'b>(&mut self, bytes: &'b [u8], counts: &mut FrameCounts) -> &'b [u8]
        requires { 0 < length bytes.now }
        ensures { length result.now < length bytes.now }
    {
        match self.next {
            Next::FileHeader => self.take_file_header(bytes),
            Next::Record(header) if self.front.came == 0 && bytes.len() >= FRONT_LEN => {
                let (size, next) = take_record(header, bytes, counts);
                self.next = next;
                &bytes[size..]
            }
            Next::Record(header) => self.take_front(header, bytes, counts),
            Next::Frame(header, left, frame_is_unseen) if left <= bytes.len() => {
                counts.count(frame_is_unseen);
                self.next = Next::Record(header);
                &bytes[left.max(1)..]
            }
            Next::Frame(header, left, frame_is_unseen) => {
                self.next = Next::Frame(header, left - bytes.len(), frame_is_unseen);
                &bytes[bytes.len()..]
            }
            Next::Nothing => &bytes[bytes.len()..],
        }
    }

    /// Goes over bytes of the file's header.
    fn take_file_header<'b>(&mut self, bytes: &'b [u8]) -> &'b [u8]
        requires { 0 < length bytes.now }
        ensures { length result.now < length bytes.now }
    {
        let rest = self.front.gather(HEADER_LEN, bytes);
        if self.front.came == HEADER_LEN {
            self.next = match header_of(self.front.as_slice()) {
                Ok(header) => Next::Record(header),
                Err(_) => Next::Nothing,
            };
            self.front = Front::EMPTY;
        }
        rest
    }

    /// Goes over bytes of the front of a record, which comes in several pieces.
    fn take_front<'b>(
        &mut self,
        header: Header,
        bytes: &'b [u8],
        counts: &mut FrameCounts,
    ) -> &'b [u8]
        requires { 0 < length bytes.now }
        ensures { length result.now < length bytes.now }
    {
        let size = front_len(header.order, self.front.as_slice());
        let rest = self.front.gather(size, bytes);
        let front = self.front;
        if front.came == front_len(header.order, front.as_slice()) {
            let (_, next) = take_record(header, front.as_slice(), counts);
            self.next = next;
            self.front = Front::EMPTY;
        }
        rest
    }
}

/// Goes over the bytes that there are of a record, which has its front among them; returns how many
/// these are, and what comes next.
fn take_record(header: Header, bytes: &[u8], counts: &mut FrameCounts) -> (usize, Next)
    requires { 0 < length bytes.now }
    ensures some { 0 < result.0 }
    ensures bound { result.0 ≤ length bytes.now }
{
    match record_of(header, 0, bytes) {
        Ok(Some(packet)) => {
            counts.count(is_unseen(packet.bytes));
            (RECORD_HEADER_LEN + packet.bytes.len(), Next::Record(header))
        }
        Err(Fault::TornRecord(_)) => {
            let left = missing_len(header.order, bytes);
            let frame = bytes.get(RECORD_HEADER_LEN..).unwrap_or(&[]);
            (bytes.len(), Next::Frame(header, left, is_unseen(frame)))
        }
        _ => (bytes.len(), Next::Nothing),
    }
}

/// The captured length in the header of a record; 0 if it is not there yet.
fn captured_len(order: Order, front: &[u8]) -> usize
    ensures { result < 2 ^ 32 }
{
    match front.get(8..12) {
        Some(field) => {
            let captured = match order {
                Order::Little => LittleEndian::read_u32(field),
                Order::Big => BigEndian::read_u32(field),
            };
            captured as usize
        }
        None => 0,
    }
}

/// How many bytes are to be seen of a record before its frame is known: its header, and then the
/// front of its frame too.
fn front_len(order: Order, front: &[u8]) -> usize
    ensures { 0 < result }
{
    if front.len() < RECORD_HEADER_LEN {
        RECORD_HEADER_LEN
    } else {
        RECORD_HEADER_LEN + captured_len(order, front).min(ETHERNET_LEN)
    }
}

/// How many bytes a record has past those that came.
fn missing_len(order: Order, bytes: &[u8]) -> usize {
    (RECORD_HEADER_LEN + captured_len(order, bytes)).saturating_sub(bytes.len())
}
