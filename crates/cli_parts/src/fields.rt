//! The fields of the line of a part, read from the left.

ghost use Rattle.std.specs.Prelude.{◌≡◌, ◌<◌, ◌≤◌, ◌++◌, ◌∷◌, ◌^◌, ℕ, List, Option, Some, IfSome, IsSomeAnd};
ghost use Rattle.std.specs.Fmt.{decimal};
ghost use Rattle.bpfvm.specs.Listing.{space};
ghost use Rattle.line_text.specs.Fields.{IsWord};
ghost use Rattle.savefile.specs.Faults.{fault_name, fault_place};
ghost use Rattle.savefile.specs.declared.fault.Fault.{Fault};
ghost use Rattle.pcap_parts.specs.declared.part.PartCut.{PartCut};
ghost use Rattle.cli_parts.specs.Lines.{IsPartEnd, IsSayable, end_text, part_text, range_text};

use cli_args::places::ByteRange;
use line_text::fields::{number, split_once};
use pcap_cut::cut::Tally;
use pcap_parts::part::PartCut;
use savefile::Fault;
use std::str;

/// The number before the next space, and the text after that.
fn number_in(text: &[u8]) -> Option<(u64, &[u8])>
    ensures some { IfSome result (λ found. found.0 < 2 ^ 64) }
    ensures whole { (n : ℕ) (rest : List ℕ) → n < 2 ^ 64 → text.now ≡ decimal n ++ space ∷ rest →
        IsSomeAnd result (λ found. (found.0 ≡ n) × (found.1.now ≡ rest)) }
{
    let (digits, rest) = split_once(text, b' ')?;
    let number = number(digits, u64::MAX)?;
    Some((number, rest))
}

/// The number after this word, and the text after its space.
fn number_after<'a>(text: &'a [u8], word: &[u8]) -> Option<(u64, &'a [u8])>
    ensures some { IfSome result (λ found. found.0 < 2 ^ 64) }
    ensures whole { (n : ℕ) (rest : List ℕ) → n < 2 ^ 64 → IsWord word.now → text.now ≡ word.now ++ space ∷ (decimal n ++ space ∷ rest) →
        IsSomeAnd result (λ found. (found.0 ≡ n) × (found.1.now ≡ rest)) }
{
    let (found, rest) = split_once(text, b' ')?;
    if found != word {
        return None;
    }
    number_in(rest)
}

/// The range before the next space, and the text after that. Its end is not before its first byte.
fn range_in(text: &[u8]) -> Option<(ByteRange, &[u8])>
    ensures some { IfSome result (λ found. (found.0.first ≤ found.0.end) × (found.0.end < 2 ^ 64)) }
    ensures whole { (first end : ℕ) (rest : List ℕ) → first ≤ end → end < 2 ^ 64 → text.now ≡ range_text first end ++ space ∷ rest →
        IsSomeAnd result (λ found. (found.0.first ≡ first) × (found.0.end ≡ end) × (found.1.now ≡ rest)) }
{
    let (digits, rest) = split_once(text, b'-')?;
    let first = number(digits, u64::MAX)?;
    let (end, rest) = number_in(rest)?;
    if end < first {
        return None;
    }
    Some((ByteRange { first, end }, rest))
}

/// The fault of this name, of a torn or bad record at this place.
#[tactic(auto, using(crate::proofs::Reading::fault_cases))]
fn fault_of(name: &[u8], place: u64) -> Option<Fault>
    ensures some { place < 2 ^ 64 → IfSome result (λ fault. IsPartEnd (Some fault)) }
    ensures whole { (fault : Fault) → IsPartEnd (Some fault) → name.now ≡ fault_name fault → fault_place fault ≡ Some place → result ≡ Some fault }
{
    if name == b"TornRecord".as_slice() {
        return Some(Fault::TornRecord(place));
    }
    if name == b"BadFraction".as_slice() {
        return Some(Fault::BadFraction(place));
    }
    if name == b"TooLong".as_slice() {
        return Some(Fault::TooLong(place));
    }
    None
}

/// How a part ends, and the text after that: inside `Some` the fault, if there is one.
fn end_in(text: &[u8]) -> Option<(Option<Fault>, &[u8])>
    ensures some { IfSome result (λ found. IsPartEnd found.0) }
    ensures whole { (fault : Option Fault) (rest : List ℕ) → IsPartEnd fault → space ∷ text.now ≡ end_text fault ++ rest →
        IsSomeAnd result (λ found. (found.0 ≡ fault) × (found.1.now ≡ rest)) }
{
    let (name, rest) = split_once(text, b' ')?;
    if name == b"Clean".as_slice() {
        return Some((None, rest));
    }
    let (place, rest) = number_in(rest)?;
    let fault = fault_of(name, place)?;
    Some((Some(fault), rest))
}

/// The part whose line may be this one, without its end. It is, if the line is that of any part.
pub(crate) fn part_in(line: &[u8]) -> Option<PartCut<'_>>
    ensures some { IfSome result IsSayable }
    ensures whole { (part : PartCut) → IsSayable part → line.now ≡ part_text part → IsSomeAnd result (λ found. line.now ≡ part_text found) }
{
    let (range, rest) = range_in(line)?;
    let (size, rest) = number_after(rest, b"of".as_slice())?;
    let (read, rest) = number_after(rest, b"packets".as_slice())?;
    let (written, rest) = number_after(rest, b"kept".as_slice())?;
    let (sent, rest) = number_after(rest, b"bytes".as_slice())?;
    let (fault, rest) = end_in(rest)?;
    let Ok(file) = str::from_utf8(rest) else {
        return None;
    };
    Some(PartCut {
        first: range.first,
        end: range.end,
        size,
        tally: Tally { read, written },
        sent,
        fault,
        file,
    })
}
