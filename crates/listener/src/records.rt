//! The records of a buffer, one by one.

ghost use Rattle.std.specs.Prelude.{◌≡◌};
ghost use Rattle.std.specs.Iterator.{YieldsFirstBy, item_count};
ghost use Rattle.listener.specs.Buffers.{message_in};
ghost use Rattle.listener.specs.Decoded.{messages_in, AreRecords};

use crate::buffer::size;
use crate::message::Record;
use byteorder::{ByteOrder, LittleEndian};
use std::marker::Model;

/// The records of a buffer that are left, oldest first. Contracts see the list of their messages.
#[derive(Drop)]
pub struct Records<'a> {
    rest: &'a [u8],
}

impl<'a> Model for Records<'a> {
    ghost use Rattle.std.specs.Prelude.{List};
    ghost use Rattle.listener.specs.declared.message.Message.{Message};
    ghost use Rattle.listener.specs.Decoded.{messages_in, AreRecords};

    ghost Value = { List Message };

    ghost view = { λ r. messages_in r.rest.now };

    ghost invariant = { λ r. AreRecords r.rest.now };
}

impl<'a> Records<'a> {
    /// The records that bytes are.
    pub(crate) fn of(bytes: &'a [u8]) -> Records<'a>
        requires { AreRecords bytes.now }
        ensures { result ≡ messages_in bytes.now }
    {
        Records { rest: bytes }
    }
}

impl<'a> Iterator for Records<'a> {
    type Item = Record<'a>;

    ghost next_gives = { YieldsFirstBy message_in (λ s. s) };

    ghost remaining = { item_count (λ s. s) };

    fn next(&mut self) -> Option<Record<'a>> {
        let rest = self.rest;
        if rest.is_empty() {
            return None;
        }
        let kept = LittleEndian::read_u32(&rest[8..]);
        let (_first, after) = rest.split_at(size(kept));
        self.rest = after;
        Some(Record {
            capture: LittleEndian::read_u32(&rest[24..]),
            place: LittleEndian::read_u64(&rest[16..]),
            sec: LittleEndian::read_u32(rest),
            nanos: LittleEndian::read_u32(&rest[4..]),
            len: LittleEndian::read_u32(&rest[12..]),
            bytes: &rest[32..32 + kept as usize],
        })
    }
}
