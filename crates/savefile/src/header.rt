//! The header of a savefile.

ghost use Rattle.std.specs.Prelude.{◌≡◌, ◌≢◌, ◌≤◌, ◌+◌, ◌⊎◌, length, IfOk, IfErr, IfSome, IfNone};
ghost use Rattle.savefile.specs.Savefile.{field, magic_of, nanos_in, number_in, per_second, HasMagic, HasVersion, IsHeader, RefusesHeader};

use crate::fault::Fault;
use byteorder::{BigEndian, ByteOrder, LittleEndian};

/// The order of the bytes in a number.
#[derive(Clone, Copy, Debug, PartialEq, Eq)]
pub enum Order {
    /// The lowest byte first, as in a savefile that begins with d4 c3 b2 a1 or 4d 3c b2 a1.
    Little,
    /// The highest byte first, as in a savefile that begins with a1 b2 c3 d4 or a1 b2 3c 4d.
    Big,
}

/// The unit of the fraction of a second in a time stamp.
#[derive(Clone, Copy, Debug, PartialEq, Eq)]
pub enum Unit {
    /// Microseconds, the magic number 0xa1b2c3d4.
    Micro,
    /// Nanoseconds, the magic number 0xa1b23c4d.
    Nano,
}

/// What the header of a savefile says.
#[derive(Clone, Copy, Debug, PartialEq, Eq)]
pub struct Header {
    pub order: Order,
    pub unit: Unit,
    /// The snapshot length: how many bytes of a packet the capture was to keep at most.
    pub snap: u32,
}

/// The bytes of a file header.
pub const HEADER_LEN: usize = 24;

const _: () = prove!(HEADER_LEN == 24);

const MAGIC_MICRO: u32 = 0xa1b2_c3d4;

const MAGIC_NANO: u32 = 0xa1b2_3c4d;

/// The version, 2.4.
pub(crate) const MAJOR: u16 = 2;

pub(crate) const MINOR: u16 = 4;

/// The link type of Ethernet.
pub(crate) const ETHERNET: u32 = 1;

impl Unit {
    /// The magic number.
    pub(crate) fn magic(self) -> u32
        ensures { result ≡ magic_of self }
    {
        match self {
            Unit::Micro => MAGIC_MICRO,
            Unit::Nano => MAGIC_NANO,
        }
    }

    /// How many of it make a second.
    pub(crate) fn per_second(self) -> u32
        ensures { result ≡ per_second self }
    {
        match self {
            Unit::Micro => 1_000_000,
            Unit::Nano => 1_000_000_000,
        }
    }

    /// How many nanoseconds it has.
    pub(crate) fn nanos(self) -> u32
        ensures { result ≡ nanos_in self }
    {
        match self {
            Unit::Micro => 1_000,
            Unit::Nano => 1,
        }
    }
}

/// The number of two bytes at an offset of a text.
fn u16_at(order: Order, text: &[u8], at: usize) -> u16
    requires { at + 2 ≤ length text.now }
    ensures { result ≡ field order text.now at 2 }
{
    match order {
        Order::Little => LittleEndian::read_u16(&text[at..]),
        Order::Big => BigEndian::read_u16(&text[at..]),
    }
}

/// The number of four bytes at an offset of a text.
fn u32_at(order: Order, text: &[u8], at: usize) -> u32
    requires { at + 4 ≤ length text.now }
    ensures { result ≡ field order text.now at 4 }
{
    match order {
        Order::Little => LittleEndian::read_u32(&text[at..]),
        Order::Big => BigEndian::read_u32(&text[at..]),
    }
}

/// The unit whose magic number a text begins with in this byte order.
fn unit_of(order: Order, text: &[u8]) -> Option<Unit>
    requires { 4 ≤ length text.now }
    ensures some { IfSome result (HasMagic text.now order) }
    ensures none { IfNone result ((unit : Unit) → HasMagic text.now order unit → ⊥) }
{
    match u32_at(order, text, 0) {
        MAGIC_MICRO => Some(Unit::Micro),
        MAGIC_NANO => Some(Unit::Nano),
        _ => None,
    }
}

/// The snapshot length, if the version and the link type are right.
fn snap_of(order: Order, text: &[u8]) -> Result<u32, Fault>
    requires { 24 ≤ length text.now }
    ensures ok { IfOk result (λ snap. HasVersion order text.now × (field order text.now 20 4 ≡ 1)
        × (field order text.now 16 4 ≡ snap)) }
    ensures err { IfErr result (λ fault. ((fault ≡ Fault.Version) × (HasVersion order text.now → ⊥))
        ⊎ ((fault ≡ Fault.LinkType) × HasVersion order text.now × (field order text.now 20 4 ≢ 1))) }
{
    if u16_at(order, text, 4) != MAJOR || u16_at(order, text, 6) != MINOR {
        return Err(Fault::Version);
    }
    if u32_at(order, text, 20) != ETHERNET {
        return Err(Fault::LinkType);
    }
    Ok(u32_at(order, text, 16))
}

/// The header of the savefile that a text begins with, whatever follows it.
///
/// The error is [`Fault::ShortHeader`], [`Fault::NotSavefile`], [`Fault::Version`] or
/// [`Fault::LinkType`], if and only if that is the first check of the header to fail. No memory is
/// taken.
pub fn header_of(text: &[u8]) -> Result<Header, Fault>
    ensures ok { IfOk result (λ header. IsHeader header.order text.now header.unit header.snap) }
    ensures err { IfErr result (RefusesHeader text.now) }
    ensures refused { (fault : Fault) → RefusesHeader text.now fault → result ≡ Err fault }
{
    if text.len() < HEADER_LEN {
        return Err(Fault::ShortHeader);
    }
    let order = Order::Little;
    if let Some(unit) = unit_of(order, text) {
        let snap = snap_of(order, text)?;
        return Ok(Header { order, unit, snap });
    }
    let order = Order::Big;
    if let Some(unit) = unit_of(order, text) {
        let snap = snap_of(order, text)?;
        return Ok(Header { order, unit, snap });
    }
    Err(Fault::NotSavefile)
}
