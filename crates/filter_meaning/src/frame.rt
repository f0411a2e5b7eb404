//! A packet, and what is looked at of it.

ghost use Rattle.std.specs.Prelude.{◌≡◌, ◌<◌, ◌^◌, ◌∷◌, [], None, Some, option_map};
ghost use Rattle.bpfvm.specs.Machine.{number_at};
ghost use Rattle.filter_meaning.specs.Looks.{packet, first_uncaptured, read};
ghost use Rattle.filter_meaning.specs.Notes.{Noted};
ghost use Rattle.filter_meaning.specs.declared.frame.Look.TheVariants.{Bytes, Length};

use crate::cause::AbortCause;
use bpfvm::{byte_at, half_at, word_at};
use std::alloc::Global;
use std::marker::Model;

/// What a test looks at.
#[derive(Clone, Copy, Debug, PartialEq, Eq)]
pub enum Look {
    /// `size` bytes of the frame from `offset` on, counted from 0.
    Bytes { offset: usize, size: usize },
    /// The length on the wire.
    Length,
}

/// A packet: its captured bytes, and its length on the wire in bytes.
#[derive(Clone, Copy)]
pub struct Frame<'a> {
    pub bytes: &'a [u8],
    pub wire: u32,
}

/// What was looked at, in order, unless it is not kept or memory for it was refused.
#[derive(Drop)]
pub(crate) struct Notes {
    kept: Option<Vec<Look>>,
}

impl Model for Notes {
    ghost use Rattle.std.specs.Prelude.{List, Option, option_map};
    ghost use Rattle.filter_meaning.specs.declared.frame.Look.{Look};

    ghost Value = { Option (List Look) };

    ghost view = { λ notes. option_map (λ kept. kept.items) notes.kept };
}

impl Notes {
    /// Notes that are not kept, which take no memory.
    pub fn none() -> Notes
        ensures { result ≡ None }
    {
        Notes { kept: None }
    }

    /// Notes that are kept.
    pub fn kept(alloc: Global) -> Notes
        ensures { result ≡ Some [] }
    {
        Notes {
            kept: Some(Vec::new(alloc)),
        }
    }

    /// What was noted; `None` if memory for it was refused.
    pub fn into_looks(self) -> Option<Vec<Look>>
        ensures { option_map (λ kept. kept.items) result ≡ self }
    {
        self.kept
    }

    /// Keeps one more look. It is a function of its own, so that if none are kept a look costs
    /// one comparison.
    #[cold]
    #[inline(never)]
    fn keep(&mut self, look: Look)
        ensures { Noted self.old self.new (look ∷ []) }
    {
        if let Some(mut kept) = self.kept.take() {
            if kept.push(look).is_ok() {
                self.kept = Some(kept);
            }
        }
    }

    /// Notes a look at bytes.
    #[inline(always)]
    fn note_bytes(&mut self, offset: usize, size: usize)
        ensures { Noted self.old self.new (Bytes offset size ∷ []) }
    {
        if self.kept.is_some() {
            self.keep(Look::Bytes { offset, size });
        }
    }

    /// Notes a look at the length on the wire.
    #[inline(always)]
    fn note_length(&mut self)
        ensures { Noted self.old self.new (Length ∷ []) }
    {
        if self.kept.is_some() {
            self.keep(Look::Length);
        }
    }
}

/// The six bytes at an offset, in network order.
fn six_at(packet: &[u8], offset: usize) -> Option<u64>
    requires { offset < 2 ^ 34 }
    ensures { result ≡ number_at packet.now offset 6 }
{
    if packet.len() < offset + 6 {
        return None;
    }
    let bytes = [
        0,
        0,
        packet[offset],
        packet[offset + 1],
        packet[offset + 2],
        packet[offset + 3],
        packet[offset + 4],
        packet[offset + 5],
    ];
    Some(u64::from_be_bytes(bytes))
}

impl Frame<'_> {
    /// The first byte from an offset on that was not captured.
    fn uncaptured(&self, offset: usize) -> AbortCause
        ensures { result ≡ first_uncaptured offset (packet self.now) }
    {
        AbortCause::NotCaptured(offset.max(self.bytes.len()))
    }

    /// Looks at a byte.
    #[inline(always)]
    pub(crate) fn byte(&self, offset: usize, notes: &mut Notes) -> Result<u32, AbortCause>
        requires { offset < 2 ^ 34 }
        ensures number { result ≡ read offset 1 (packet self.now) }
        ensures noted { Noted notes.old notes.new (Bytes offset 1 ∷ []) }
    {
        notes.note_bytes(offset, 1);
        byte_at(self.bytes, offset).ok_or(self.uncaptured(offset))
    }

    /// Looks at two bytes.
    #[inline(always)]
    pub(crate) fn half(&self, offset: usize, notes: &mut Notes) -> Result<u32, AbortCause>
        requires { offset < 2 ^ 34 }
        ensures number { result ≡ read offset 2 (packet self.now) }
        ensures noted { Noted notes.old notes.new (Bytes offset 2 ∷ []) }
    {
        notes.note_bytes(offset, 2);
        half_at(self.bytes, offset).ok_or(self.uncaptured(offset))
    }

    /// Looks at four bytes.
    #[inline(always)]
    pub(crate) fn word(&self, offset: usize, notes: &mut Notes) -> Result<u32, AbortCause>
        requires { offset < 2 ^ 34 }
        ensures number { result ≡ read offset 4 (packet self.now) }
        ensures noted { Noted notes.old notes.new (Bytes offset 4 ∷ []) }
    {
        notes.note_bytes(offset, 4);
        word_at(self.bytes, offset).ok_or(self.uncaptured(offset))
    }

    /// Looks at six bytes.
    #[inline(always)]
    pub(crate) fn six(&self, offset: usize, notes: &mut Notes) -> Result<u64, AbortCause>
        requires { offset < 2 ^ 34 }
        ensures number { result ≡ read offset 6 (packet self.now) }
        ensures noted { Noted notes.old notes.new (Bytes offset 6 ∷ []) }
    {
        notes.note_bytes(offset, 6);
        six_at(self.bytes, offset).ok_or(self.uncaptured(offset))
    }

    /// Looks at the length on the wire.
    #[inline(always)]
    pub(crate) fn length(&self, notes: &mut Notes) -> u32
        ensures number { result ≡ (packet self.now).wire }
        ensures noted { Noted notes.old notes.new (Length ∷ []) }
    {
        notes.note_length();
        self.wire
    }
}
