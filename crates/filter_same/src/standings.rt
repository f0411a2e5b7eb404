//! Where the bytes of a packet stand in the numbers that filters compare, and the order in which
//! bits are asked for by that.

use crate::shape::{Part, Shape};
use filter_bdd::{BitOrder, Stop};
use filter_tree::headers::{ETHER_TYPE, IP_OFF, IP_P};
use std::alloc::Global;

/// How many bytes have a standing, those of the length on the wire being the first. Bits of later
/// ones are asked for by their names.
const BYTES: usize = 4 + 2048;

/// How many bytes the length on the wire has, which are named before those of the frame.
pub(crate) const WIRE: u32 = 4;

/// How many bytes are looked at, those of the length on the wire being the first: a field begins at
/// an offset below 2^17, and has at most four.
const LOOKED_AT: u32 = WIRE + (1 << 17) + 3;

/// The bytes by which filters distinguish protocols. Their bits are asked for before those that are
/// compared with one another.
const KINDS: [u32; 5] = [
    ETHER_TYPE as u32,
    ETHER_TYPE as u32 + 1,
    IP_P as u32,
    IP_OFF as u32,
    IP_OFF as u32 + 1,
];

/// The place in a number below which none is looked at.
const DEEPEST: i32 = 1 << 20;

/// Where a byte stands: numbers that have a field in common are a group, and the places of bits in
/// them are counted from the same one.
#[derive(Clone, Copy, Debug, PartialEq, Eq)]
struct Standing {
    group: u32,
    /// The place of the byte's lowest bit.
    place: i32,
}

/// When a bit is asked for: by its part of the order, its group, how far its place is from the
/// highest one, and its name.
#[derive(Clone, Copy, Debug, PartialEq, Eq, PartialOrd, Ord)]
struct Rank {
    part: u32,
    group: u32,
    depth: i32,
    name: u32,
}

/// Where the bytes stand that filters look at.
#[derive(Drop)]
pub(crate) struct Standings {
    bytes: Vec<Option<Standing>>,
    /// Bytes that the index of a load is made of.
    indices: Vec<u32>,
    groups: u32,
}

impl Standing {
    /// Where it is when the group of `old` is moved to where `new` stands.
    fn merged(self, old: Standing, new: Standing) -> Standing {
        if self.group != old.group {
            return self;
        }
        let moved = new.place.saturating_sub(old.place);
        Standing {
            group: new.group,
            place: self.place.saturating_add(moved),
        }
    }
}

impl Standings {
    /// No byte has a standing.
    pub fn new(alloc: Global) -> Result<Standings, Stop> {
        match vec![in alloc; None::<Standing>; BYTES] {
            Ok(bytes) => Ok(Standings {
                bytes,
                indices: Vec::new(alloc),
                groups: 0,
            }),
            Err(_) => Err(Stop::Memory),
        }
    }

    /// Where a byte stands.
    fn at(&self, byte: u32) -> Option<Standing> {
        self.bytes.get(byte as usize).copied().flatten()
    }

    /// Where place 0 of a number stands by one of its fields.
    fn origin(&self, part: Option<Part>) -> Option<Standing> {
        let part = part?;
        let standing = self.at(part.first)?;
        let above = part.bytes.min(8) * 8;
        let first = standing.place.saturating_sub(part.moved);
        Some(Standing {
            group: standing.group,
            place: first.saturating_sub(above as i32 - 8),
        })
    }

    /// Makes one group of two: that of `old` is moved to where `new` stands.
    fn merge(&mut self, old: Standing, new: Standing) {
        for entry in self.bytes.iter_mut() {
            if let Some(standing) = *entry {
                *entry = Some(standing.merged(old, new));
            }
        }
    }

    /// Gives a byte a standing, or joins the groups if it has one.
    fn put(&mut self, byte: u32, standing: Standing) {
        match self.at(byte) {
            Some(old) if old.group != standing.group => self.merge(old, standing),
            Some(_) => {}
            None => self.set(byte, standing),
        }
    }

    /// Gives a byte a standing, if bytes there have one.
    fn set(&mut self, byte: u32, standing: Standing) {
        if let Some(entry) = self.bytes.get_mut(byte as usize) {
            *entry = Some(standing);
        }
    }

    /// Gives the bytes of a field a standing, in a number whose place 0 has this one.
    fn put_part(&mut self, part: Part, origin: Standing) {
        let bytes = part.bytes.min(8);
        let lowest = origin.place.saturating_add(part.moved);
        for byte in 0..bytes {
            let below = (bytes - 1 - byte) * 8;
            let standing = Standing {
                group: origin.group,
                place: lowest.saturating_add(below as i32),
            };
            self.put(part.first.saturating_add(byte), standing);
        }
    }

    /// Where place 0 of a number stands, which begins a group if none of its fields is in one.
    fn origin_of(&mut self, shape: &Shape) -> Standing {
        let known = shape.parts.iter().find_map(|part| self.origin(*part));
        let group = self.groups;
        self.groups = group.saturating_add(1);
        known.unwrap_or(Standing { group, place: 0 })
    }

    /// Fields of a number are asked for in turn, if they have bits at the same places.
    pub fn join(&mut self, shape: &Shape) {
        if shape.is_joined() {
            self.stand(shape);
        }
    }

    /// Gives the fields of a number a standing: they are not asked for before the others, even if
    /// they distinguish protocols.
    pub fn stand(&mut self, shape: &Shape) {
        let origin = self.origin_of(shape);
        for part in shape.parts {
            if let Some(part) = part {
                self.put_part(part, origin);
            }
        }
    }

    /// A number is the index of a load, so its bits come first.
    pub fn index(&mut self, shape: &Shape) -> Result<(), Stop> {
        for part in shape.parts {
            if let Some(part) = part {
                self.index_part(part)?;
            }
        }
        Ok(())
    }

    /// The same of one of its fields, unless no bit of it is looked at.
    fn index_part(&mut self, part: Part) -> Result<(), Stop> {
        for place in 0..part.bytes.min(8) {
            let byte = part.first.saturating_add(place);
            if byte < LOOKED_AT && self.indices.push(byte).is_err() {
                return Err(Stop::Memory);
            }
        }
        Ok(())
    }
}

/// The names of bits, in the order of their ranks.
fn names_of(alloc: Global, ranks: &[Rank]) -> Result<Vec<u32>, Stop> {
    let mut names = Vec::new(alloc);
    for rank in ranks {
        if names.push(rank.name).is_err() {
            return Err(Stop::Memory);
        }
    }
    Ok(names)
}

/// Appends the ranks of a byte's bits.
fn push_ranks(ranks: &mut Vec<Rank>, part: u32, byte: u32, standing: Standing) -> Result<(), Stop> {
    for bit in 0..8u32 {
        let place = standing.place.saturating_add(7 - bit as i32);
        let rank = Rank {
            part,
            group: standing.group,
            depth: DEEPEST.saturating_sub(place),
            name: byte.saturating_mul(8).saturating_add(bit),
        };
        if ranks.push(rank).is_err() {
            return Err(Stop::Memory);
        }
    }
    Ok(())
}

impl Standings {
    /// Appends the ranks of the bits that distinguish protocols, except those that are compared
    /// with others.
    fn push_kinds(&self, ranks: &mut Vec<Rank>) -> Result<(), Stop> {
        for (group, offset) in (0..u32::MAX).zip(KINDS.iter()) {
            let byte = WIRE.saturating_add(*offset);
            if self.at(byte).is_none() {
                push_ranks(ranks, 0, byte, Standing { group, place: 0 })?;
            }
        }
        Ok(())
    }

    /// Appends the ranks of the bits that indices are made of.
    fn push_indices(&self, ranks: &mut Vec<Rank>) -> Result<(), Stop> {
        for (group, byte) in (0..u32::MAX).zip(self.indices.iter()) {
            push_ranks(ranks, 1, *byte, Standing { group, place: 0 })?;
        }
        Ok(())
    }

    /// Appends the ranks of the bits that are asked for in turn.
    fn push_groups(&self, ranks: &mut Vec<Rank>) -> Result<(), Stop> {
        for (byte, standing) in (0..u32::MAX).zip(self.bytes.iter()) {
            if let Some(standing) = standing {
                push_ranks(ranks, 2, byte, *standing)?;
            }
        }
        Ok(())
    }

    /// The order in which bits are asked for: those of protocols, those of indices, those that are
    /// compared with one another, and the others by their names. By their names all, if nothing
    /// is an index or is compared with another field.
    pub fn order(&self, alloc: Global) -> Result<BitOrder, Stop> {
        if self.groups == 0 && self.indices.is_empty() {
            return Ok(BitOrder::natural(alloc));
        }
        let mut ranks = Vec::new(alloc);
        self.push_kinds(&mut ranks)?;
        self.push_indices(&mut ranks)?;
        self.push_groups(&mut ranks)?;
        ranks.sort_unstable();
        BitOrder::of(alloc, names_of(alloc, &ranks)?.as_slice())
    }
}
