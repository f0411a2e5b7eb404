//! What a filter keeps of a packet.

ghost use Rattle.std.specs.Prelude.{◌≡◌, ℕ, Some, None, IfSome, IfNone};
ghost use Rattle.listener.specs.Messages.{arrival, kept_by, Keeps};

use bpfvm::Program;
use savefile::PacketRef;

/// How many bytes are kept of a packet: the least of the snapshot length, the program's answer and
/// the captured length; nothing if the program rejects it. The snapshot length is lent, so that it
/// is loaded only for a packet that is accepted.
#[inline(always)]
pub fn kept_of(program: &Program, snap: &u32, packet: &PacketRef<'_>) -> Option<u32>
    ensures rejected { IfNone result ((capture place : ℕ) → kept_by program.now snap.now (arrival capture place packet.now) ≡ None) }
    ensures kept { IfSome result (λ kept. (capture place : ℕ) → Keeps program.now snap.now (arrival capture place packet.now) kept) }
{
    let verdict = bpfvm::run(program, packet.bytes, packet.len);
    if verdict == 0 {
        return None;
    }
    let most = verdict.min(*snap);
    Some((most as usize).min(packet.bytes.len()) as u32)
}
