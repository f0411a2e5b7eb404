//! What calls put into the caller's memory.

ghost use Rattle.std.specs.Prelude.{◌≡◌, ◌+◌, ◌^◌, ◌<◌, ◌++◌, length};
ghost use Rattle.bpftap_c.specs.Memory.{Puts, PutsText};

use crate::outcome::{BpftapResult, Failure, done, failed};

/// Puts bytes into the front of the caller's memory.
pub(crate) fn put_bytes(bytes: &[u8], to: &mut [u8]) -> BpftapResult
    ensures { Puts bytes.now to.old to.new result }
{
    let size = bytes.len();
    if to.len() < size {
        return failed(Failure::NoRoom(size));
    }
    to[..size].copy_from_slice(bytes);
    done(size)
}

/// Puts a text and a zero byte after it into the front of the caller's memory.
pub(crate) fn put_text(text: &[u8], to: &mut [u8]) -> BpftapResult
    ensures { PutsText text.now to.old to.new result }
{
    let size = text.len();
    if to.len() <= size {
        return failed(Failure::NoRoom(size));
    }
    to[..size].copy_from_slice(text);
    to[size] = 0;
    done(size)
}

/// Puts bytes and then others into the front of the caller's memory.
pub(crate) fn put_both(first: &[u8], second: &[u8], to: &mut [u8]) -> BpftapResult
    requires { length first.now + length second.now < 2 ^ 63 }
    ensures { Puts (first.now ++ second.now) to.old to.new result }
{
    let middle = first.len();
    let size = middle + second.len();
    if to.len() < size {
        return failed(Failure::NoRoom(size));
    }
    to[..middle].copy_from_slice(first);
    to[middle..size].copy_from_slice(second);
    done(size)
}
