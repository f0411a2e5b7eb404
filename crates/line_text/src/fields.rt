//! The lines of a file, and their fields.

ghost use Rattle.std.specs.Prelude.{◌≡◌, ◌≢◌, ℕ, ◌<◌, [], ◌∷◌, length, IfSome, IfNone};
ghost use Rattle.bpfvm.specs.Listing.{further_lines};
ghost use Rattle.listener.specs.declared.mode.Mode.{Mode};
ghost use Rattle.line_text.specs.Fields.{IsSnap, IsCapacity};

pub use bpfvm::listing::{number, split_once};
use listener::Mode;
use savefile::{MAX_SNAP, effective_snaplen};

/// The first line of a text, without the byte 10 at its end, which the last line may lack, and the
/// text after it.
pub fn first_line(text: &[u8]) -> (&[u8], &[u8])
    ensures first { text.now ≢ [] → further_lines text.now ≡ result.0.now ∷ further_lines result.1.now }
    ensures shorter { text.now ≢ [] → length result.1.now < length text.now }
{
    match split_once(text, b'\n') {
        Some(parts) => parts,
        None => (text, &[]),
    }
}

/// A snapshot length of 0 to 262,144 bytes; 0 means the largest.
pub fn snapshot_length(text: &[u8]) -> Option<u32>
    ensures some { IfSome result (λ snap. IsSnap text.now snap) }
    ensures none { IfNone result ((snap : ℕ) → IsSnap text.now snap → ⊥) }
{
    let snap = number(text, u64::from(MAX_SNAP))?;
    Some(effective_snaplen(snap as u32))
}

/// A capacity in bytes. An `i` after its digits means the mode Immediate.
pub fn capacity_and_mode(text: &[u8]) -> Option<(usize, Mode)>
    ensures some { IfSome result (λ terms. IsCapacity text.now terms.0 terms.1) }
    ensures none { IfNone result ((capacity : ℕ) (mode : Mode) → IsCapacity text.now capacity mode → ⊥) }
{
    if let Some((last, digits)) = text.split_last() {
        if *last == b'i' {
            return Some((number(digits, u64::MAX)? as usize, Mode::Immediate));
        }
    }
    Some((number(text, u64::MAX)? as usize, Mode::Buffered))
}
