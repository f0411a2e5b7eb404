//! The parts that make a whole capture, of all that were cut.

ghost use Rattle.std.specs.Prelude.{◌≡◌, ◌<◌, All, IfErr, IfOk, length};
ghost use Rattle.std.specs.List.{Contains};
ghost use Rattle.pcap_parts.specs.Joining.{begun, Joins};
ghost use Rattle.pcap_parts.specs.Selecting.{Selects, IsUnfit};
ghost use Rattle.pcap_parts.specs.declared.select.SelectionFault.TheVariants.{NoMemory, Misfit as Unfit};

use crate::join::{FIRST_RECORD, Joined, Misfit};
use crate::part::PartCut;
use std::alloc::{AllocError, AllocFailed, Global};

/// The parts that make a whole capture, in order, and what they have together.
#[derive(Debug, Drop)]
pub struct Selection<'a> {
    pub parts: Vec<PartCut<'a>>,
    pub whole: Joined,
}

/// Why no parts are selected.
#[derive(Clone, Copy, Debug, PartialEq, Eq)]
pub enum SelectionFault {
    /// They do not make a whole capture.
    Misfit(Misfit),
    NoMemory,
}

impl From<Misfit> for SelectionFault {
    ghost from_gives = { λ misfit e. e ≡ Unfit misfit };

    fn from(misfit: Misfit) -> SelectionFault {
        SelectionFault::Misfit(misfit)
    }
}

impl<T: Drop> From<AllocFailed<T>> for SelectionFault {
    ghost from_gives = { λ _ e. e ≡ NoMemory };

    fn from(_e: AllocFailed<T>) -> SelectionFault {
        SelectionFault::NoMemory
    }
}

/// Selects the parts that make a whole capture of `size` bytes, of parts in the order of where they
/// begin; of those that begin at one byte the first is taken. A part that begins inside a part that
/// is taken is passed over, and so is all after a bad record.
///
/// The error is that of the first part that does not follow: [`Misfit::Missing`] if none begins
/// where the ones before end, also at the end; [`Misfit::OtherSize`]; [`Misfit::CutOff`] if it ends
/// inside a record and the capture goes on; or [`Misfit::CountFull`]. It is `NoMemory` if memory
/// was refused.
pub fn select_parts<'a>(
    alloc: Global,
    parts: &[PartCut<'a>],
    size: u64,
) -> Result<Selection<'a>, SelectionFault>
    // They are among these parts.
    ensures given { IfOk result (λ selection. All (Contains parts.now) selection.parts.items) }
    // From the header on each part begins where the one before ends, and each but the last is read
    // clean.
    ensures joins { IfOk result (λ selection. Joins (begun size) selection.parts.items selection.whole) }
    // All that follow are taken, up to the end of the capture or to a bad record; there is one.
    ensures selects { IfOk result (λ selection. Selects size parts.now selection.parts.items selection.whole) }
    ensures unfit { IfErr result (IsUnfit size parts.now) }
{
    let mut whole = Joined::new(size);
    let mut selected = Vec::new(alloc);
    for part in parts {
        if whole.add(part)? {
            selected.push(*part)?;
        }
    }
    if selected.is_empty() {
        return Err(SelectionFault::Misfit(Misfit::Missing(FIRST_RECORD)));
    }
    whole.finish()?;
    Ok(Selection {
        parts: selected,
        whole,
    })
}
