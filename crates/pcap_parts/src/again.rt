//! Which bytes are cut again, if parts were parted at wrong places.

ghost use Rattle.std.specs.Prelude.{◌≡◌, ◌<◌, ◌≤◌, true, IfOk};
ghost use Rattle.pcap_parts.specs.Again.{AreAgain, IsCutOff};

use crate::part::PartCut;
use savefile::Fault;
use std::alloc::{AllocFailed, Global};

/// The bytes of a capture from `first` up to the one before `end`.
#[derive(Clone, Copy, Debug, PartialEq, Eq)]
pub struct Stretch {
    pub first: u64,
    pub end: u64,
}

/// Whether a part ends inside a record, and the capture goes on.
fn is_cut_off(part: &PartCut<'_>, size: u64) -> bool
    ensures { result ≡ true → IsCutOff size part.now }
{
    matches!(part.fault, Some(Fault::TornRecord(_))) && part.end < size
}

/// Where a stretch ends that is longer by half: where one of these parts ends, or the capture does.
fn longer_end(parts: &[PartCut<'_>], first: u64, end: u64, size: u64) -> u64
    ensures longer { end < size → end < result }
    ensures bound { result ≤ size }
{
    let length = end.saturating_sub(first);
    let wanted = end.saturating_add(length / 2 + 1);
    for part in parts {
        if part.end >= wanted {
            return part.end.min(size);
        }
    }
    size
}

/// Where the next part begins, if this one is not cut off. After a fault there is none.
fn next_after(part: &PartCut<'_>, size: u64) -> u64
    ensures { part.now.first ≤ result }
{
    match part.fault {
        Some(_) => size.max(part.first),
        None => part.end.max(part.first),
    }
}

/// The stretches of a capture of `size` bytes to cut again, in order, if one that begins at a
/// record ends inside another one: a longer one in its place, and so for each further part that
/// ends inside a record, as if what goes before were read clean then. Since each is longer by half,
/// all that is cut again from one place on is at most three times as long as the last of it.
pub fn stretches_again(
    alloc: Global,
    parts: &[PartCut<'_>],
    cut_off: Stretch,
    size: u64,
) -> Result<Vec<Stretch>, AllocFailed<Stretch>>
    ensures { IfOk result (λ again. AreAgain parts.now cut_off size again.items) }
{
    let Stretch { first, end } = cut_off;
    let mut again = Vec::new(alloc);
    let mut next = longer_end(parts, first, end, size);
    again.push(Stretch { first, end: next })?;
    for index in 0..parts.len() {
        let part = &parts[index];
        if part.first == next {
            if is_cut_off(part, size) {
                next = longer_end(&parts[index..], part.first, part.end, size);
                again.push(Stretch {
                    first: part.first,
                    end: next,
                })?;
            } else {
                next = next_after(part, size);
            }
        }
    }
    Ok(again)
}
