//! Bytes that are copied from a file to another.

ghost use Rattle.std.specs.Prelude.{◌≡◌, ℕ, ◌<◌, ◌≤◌, List, [], IfErr, IfOk, IfSome, OnOk, length};
ghost use Rattle.std.specs.Io.KnownBytes.{Appends, Consumes};
ghost use Rattle.savefile.specs.Device.{CountsFailure};
ghost use Rattle.pcap_parts.specs.Copying.{Copies, IsOtherSize, CountsInput, CountsOutput, IfSize};

use savefile::{Broken, HEADER_LEN, Sink, Source};

/// Why bytes were not copied.
#[derive(Clone, Copy, Debug, PartialEq, Eq)]
pub enum CopyFault {
    /// The source failed.
    Input,
    /// The source has another number of bytes.
    Size,
    /// The sink failed.
    Output,
}

/// A sink that keeps nothing.
#[derive(Debug, Drop)]
pub struct Nowhere;

impl Sink for Nowhere {
    ghost failures = { λ _. 0 };

    fn write(&mut self, from: &[u8]) -> Result<usize, Broken> {
        Ok(from.len())
    }
}

/// Writes a text.
pub fn write_text<W: Sink>(text: &[u8], to: &mut W) -> Result<(), Broken>
    ensures whole { OnOk result (Appends (W.taken to.old) (W.taken to.new) text.now) }
    ensures named { W.name to.new ≡ W.name to.old }
    ensures failures { CountsFailure (W.failures to.old) (W.failures to.new) result }
{
    let mut rest = text;
    while !rest.is_empty() {
        match to.write(rest) {
            Ok(taken) => rest = &rest[taken..],
            Err(Broken) => return Err(Broken),
        }
    }
    Ok(())
}

/// Copies the next bytes, at least one and at most as many as there is room for; returns how many.
fn copy_piece<R: Source, W: Sink>(
    from: &mut R,
    room: &mut [u8],
    to: &mut W,
) -> Result<usize, CopyFault>
    requires room { 0 < length room.now }
    ensures room { length room.new ≡ length room.old }
    ensures bound { IfOk result (λ n. (0 < n) × (n ≤ length room.old)) }
    ensures copied { IfOk result (λ n. (bytes : List ℕ) × Consumes (R.left from.old) (R.left from.new) bytes
        × Appends (W.taken to.old) (W.taken to.new) bytes × (length bytes ≡ n)) }
    ensures named { W.name to.new ≡ W.name to.old }
    ensures input { CountsInput (R.failures from.old) (R.failures from.new) result }
    ensures output { CountsOutput (W.failures to.old) (W.failures to.new) result }
    ensures ended { IfErr result (IfSize (IfSome (R.left from.old) (λ left. left ≡ []))) }
{
    let came = match from.read(room) {
        Ok(0) => return Err(CopyFault::Size),
        Ok(came) => came,
        Err(Broken) => return Err(CopyFault::Input),
    };
    match write_text(&room[..came], to) {
        Ok(()) => Ok(came),
        Err(Broken) => Err(CopyFault::Output),
    }
}

/// Copies `count` bytes by way of `room`.
pub fn copy_bytes<R: Source, W: Sink>(
    from: &mut R,
    count: u64,
    room: &mut [u8],
    to: &mut W,
) -> Result<(), CopyFault>
    requires room { 0 < length room.now }
    ensures room { length room.new ≡ length room.old }
    ensures copied { OnOk result ((bytes : List ℕ) × Consumes (R.left from.old) (R.left from.new) bytes
        × Appends (W.taken to.old) (W.taken to.new) bytes × (length bytes ≡ count)) }
    ensures named { W.name to.new ≡ W.name to.old }
    ensures input { CountsInput (R.failures from.old) (R.failures from.new) result }
    ensures output { CountsOutput (W.failures to.old) (W.failures to.new) result }
    ensures short { IfErr result (IfSize (IfSome (R.left from.old) (λ left. length left < count))) }
{
    let mut left = count;
    while left > 0 {
        let most = left.min(room.len() as u64) as usize;
        match copy_piece(from, &mut room[..most], to) {
            Ok(came) => left -= came as u64,
            Err(fault) => return Err(fault),
        }
    }
    Ok(())
}

/// Copies what a file of `count` bytes has after its header, to its end.
pub fn copy_after_header<R: Source, W: Sink>(
    from: &mut R,
    count: u64,
    room: &mut [u8],
    to: &mut W,
) -> Result<(), CopyFault>
    requires room { 0 < length room.now }
    ensures room { length room.new ≡ length room.old }
    ensures copied { OnOk result (Copies (R.left from.old) (R.left from.new) (W.taken to.old) (W.taken to.new) count) }
    ensures named { W.name to.new ≡ W.name to.old }
    ensures input { CountsInput (R.failures from.old) (R.failures from.new) result }
    ensures output { CountsOutput (W.failures to.old) (W.failures to.new) result }
    ensures size { IfErr result (IfSize (IfSome (R.left from.old) (IsOtherSize count))) }
{
    let Some(after) = count.checked_sub(HEADER_LEN as u64) else {
        return Err(CopyFault::Size);
    };
    if let Err(fault) = copy_bytes(from, HEADER_LEN as u64, room, &mut Nowhere) {
        return Err(fault);
    }
    if let Err(fault) = copy_bytes(from, after, room, to) {
        return Err(fault);
    }
    match from.read(room) {
        Ok(0) => Ok(()),
        Ok(_) => Err(CopyFault::Size),
        Err(Broken) => Err(CopyFault::Input),
    }
}
