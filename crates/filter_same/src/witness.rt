//! Packets that show a difference.

ghost use Rattle.std.specs.Prelude.{◌<◌, ◌≤◌, length, IfSome, IsTrue};

use crate::plain::{LENGTH, Plain};
use filter_bdd::{Answer, Node, Stop};
use filter_diagrams::Builder;
use std::alloc::Global;

/// The longest Ethernet frame, without its checksum. A longer packet is captured only as far as an
/// answer needs.
const LONGEST: u32 = 1514;

/// A packet: its captured bytes, and its length on the wire in bytes.
#[derive(Debug, PartialEq, Eq, Drop)]
pub struct Witness {
    pub bytes: Vec<u8>,
    pub wire: u32,
}

/// How much of a packet is captured.
#[derive(Clone, Copy, Debug, PartialEq, Eq)]
pub(crate) enum Extent {
    /// The whole packet, if it is not long.
    Whole,
    /// No more than an answer needs.
    Least,
}

/// A bit by its name, and what it is.
#[derive(Clone, Copy, Debug)]
struct Bit {
    name: u32,
    one: bool,
}

impl Bit {
    /// A length on the wire with this bit.
    fn wire(self, wire: u32) -> u32 {
        if self.name >= 32 {
            return wire;
        }
        let place = 1u32 << (31 - self.name);
        if self.one {
            wire | place
        } else {
            wire & !place
        }
    }

    /// Writes the bit into a frame, if the frame has it.
    fn write(self, frame: &mut [u8]) {
        if self.name < 32 {
            return;
        }
        let name = self.name - 32;
        let place = 0x80u8 >> (name % 8);
        let offset = (name / 8) as usize;
        if offset < frame.len() {
            let byte = frame[offset];
            frame[offset] = if self.one {
                byte | place
            } else {
                byte & !place
            };
        }
    }
}

impl Witness {
    /// Whether no more of the packet was captured than was on the wire.
    pub(crate) fn is_captured(&self) -> bool
        ensures { IsTrue result → length self.now.bytes.items ≤ self.now.wire }
    {
        self.bytes.len() <= self.wire as usize
    }
}

/// One step down to an answer other than Yes, if there is one to take: the bit that a node asks
/// for, and the node after it. If both ways lead to such an answer, it takes that of the plain
/// frame.
fn step_down(builder: &Builder, place: u32, plain: Plain) -> Option<(Bit, u32)>
    requires place { place < length builder.now.symbols.words.diagrams }
    requires header { plain.header < 16 }
    ensures less { IfSome result (λ step. step.1 < place) }
{
    let Node::Branch(name, zero, one) = builder.symbols.words.diagrams.node(place) else {
        return None;
    };
    let usual = plain.is_set(name);
    let (there, other) = if usual { (one, zero) } else { (zero, one) };
    if builder
        .symbols
        .words
        .diagrams
        .is(there, Answer::Final(0, true))
    {
        Some((Bit { name, one: !usual }, other))
    } else {
        Some((Bit { name, one: usual }, there))
    }
}

/// The bits on the way down, and the answer there.
fn way_down(
    builder: &Builder,
    alloc: Global,
    from: u32,
    plain: Plain,
) -> Result<(Vec<Bit>, Answer), Stop>
    requires from { from < length builder.now.symbols.words.diagrams }
    requires header { plain.header < 16 }
{
    let mut bits = Vec::new(alloc);
    let mut place = from;
    while let Some((bit, next)) = step_down(builder, place, plain) {
        if bits.push(bit).is_err() {
            return Err(Stop::Memory);
        }
        place = next;
    }
    match builder.symbols.words.diagrams.node(place) {
        Node::Leaf(says) => Ok((bits, says)),
        Node::Branch(_, _, _) => Ok((bits, Answer::Never)),
    }
}

/// A packet whose bits lead from a node to a No, with as many captured bytes as that needs or more,
/// if there is one.
pub(crate) fn witness_of(
    builder: &Builder,
    alloc: Global,
    from: u32,
    extent: Extent,
) -> Result<Option<Witness>, Stop>
    requires from { from < length builder.now.symbols.words.diagrams }
    requires header { IfSome builder.now.symbols.header (λ n. n < 16) }
{
    let plain = Plain {
        header: builder.symbols.header.unwrap_or(5),
    };
    let (bits, says) = way_down(builder, alloc, from, plain)?;
    let Answer::Final(need, false) = says else {
        return Ok(None);
    };
    let wire = wire_of(&bits, need);
    let bytes = frame(alloc, &bits, plain, extent.captured(wire, need))?;
    Ok(Some(Witness { bytes, wire }))
}

/// A length on the wire with these bits, and the others from another length.
fn wire_from(bits: &[Bit], free: u32) -> u32 {
    let mut wire = free;
    for bit in bits {
        wire = bit.wire(wire);
    }
    wire
}

/// A length on the wire with these bits: that of the plain frame, or else one that is at least
/// `need`, if that can be.
fn wire_of(bits: &[Bit], need: u32) -> u32 {
    let usual = wire_from(bits, LENGTH);
    if usual >= need {
        return usual;
    }
    let least = wire_from(bits, need);
    if least >= need {
        return least;
    }
    wire_from(bits, u32::MAX)
}

impl Extent {
    /// How many bytes of a packet are captured, at least `need`.
    fn captured(self, wire: u32, need: u32) -> u32 {
        if self == Extent::Least || wire > LONGEST {
            need
        } else {
            wire.max(need)
        }
    }
}

/// A frame of `size` bytes: it has these bits, and elsewhere those of the plain frame.
fn frame(alloc: Global, bits: &[Bit], plain: Plain, size: u32) -> Result<Vec<u8>, Stop>
    requires { plain.header < 16 }
{
    let mut frame = Vec::new(alloc);
    for offset in 0..size {
        if frame.push(plain.byte(offset)).is_err() {
            return Err(Stop::Memory);
        }
    }
    for bit in bits {
        bit.write(&mut frame);
    }
    Ok(frame)
}
