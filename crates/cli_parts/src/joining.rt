//! The parts of LINES, joined, whatever the files are.

ghost use Rattle.std.specs.Prelude.{◌≡◌, ℕ, ◌<◌, List, Bool, true, Option, All, IfErr, IfOk, OnOk, length, option_map};
ghost use Rattle.pcap_parts.specs.Writing.{OneOf};
ghost use Rattle.cli_parts.specs.Joined.{HasSize, IfWriting, IsApart, IsBefore, IsJoinFault, IsJoined, IsKept, IsSizeFault};

use crate::lines::{LinesFault, select_lines};
use cli_files::paths::PathFault;
use pcap_parts::files::PartFiles;
use pcap_parts::part::PartCut;
use pcap_parts::select::Selection;
use pcap_parts::writing::{WriteFault, write_parts};
use savefile::{Fault, Sink};
use std::alloc::Global;

/// The files of `join`: those of parts, and OUT, which none of them may be.
pub trait JoinFiles<'p>: PartFiles {
    /// Whether the file at a path is another one than OUT.
    ghost apart: { Self → List ℕ → Bool };

    /// Refuses an OUT that is the file of one of these parts, or that of LINES.
    fn check_apart(&self, parts: &[PartCut<'p>]) -> Result<(), PathFault<'p>>
        ensures { Self.known ≡ true → OnOk result (All (IsApart (apart self.now)) parts.now) };

    /// How many bytes the file at a path has; `None` if there is no regular file.
    fn size(&self, path: &str) -> Result<Option<u64>, Self::Failure>
        ensures { Self.known ≡ true → IfOk result (λ size. size ≡ option_map length (Self.text self.now path.now)) };
}

/// Why parts are not joined.
#[derive(Debug, Drop)]
pub enum JoinFault<'p, E> {
    /// LINES says no parts that make a whole capture.
    Lines(LinesFault),
    /// OUT would be lost.
    Paths(PathFault<'p>),
    /// The file of a part has another size than its line says, or could not be asked.
    Sizes(WriteFault<'p, E>),
    /// They could not be written as one.
    Writing(WriteFault<'p, E>),
}

/// Checks that the file of each part has as many bytes as its line says.
#[tactic(auto, using(crate::proofs::Sizes::no_size))]
fn check_sizes<'p, F: JoinFiles<'p>>(
    files: &F,
    parts: &[PartCut<'p>],
) -> Result<(), WriteFault<'p, F::Failure>>
    ensures sizes { F.known ≡ true → OnOk result (All (HasSize (F.text files.now)) parts.now) }
    ensures fault { F.known ≡ true → IfErr result (λ fault. OneOf (IsSizeFault (F.text files.now) fault) parts.now) }
{
    for part in parts {
        let size = match files.size(part.file) {
            Ok(size) => size,
            Err(failure) => return Err(WriteFault::Unread(part.file, failure)),
        };
        if size != Some(part.sent) {
            return Err(WriteFault::OtherSize(part.file));
        }
    }
    Ok(())
}

/// Joins the parts of LINES, which has this text, into OUT: those that make a whole capture, in their order. Before a byte is written the paths, the
/// sizes and the headers of all files are compared. Returns the fault of the whole capture, if it has one, at its place there.
pub fn join_files<'p, F: JoinFiles<'p>, W: Sink>(
    alloc: Global,
    files: &F,
    text: &'p [u8],
    to: &mut W,
) -> Result<Option<Fault>, JoinFault<'p, F::Failure>>
    ensures joined { F.known ≡ true → IfOk result (IsJoined (F.text files.now) (F.apart files.now) (W.taken to.old) (W.taken to.new) text.now) }
    ensures fault { F.known ≡ true → IfErr result (IsJoinFault (F.text files.now) text.now) }
    ensures untouched { F.known ≡ true → IfErr result (λ fault. IsBefore fault → to.new ≡ to.old) }
    // Nor is one written later unless the files of all have one header.
    ensures kept { F.known ≡ true → IfErr result (λ fault. IfWriting fault (IsKept (F.text files.now) text.now to.old to.new)) }
    ensures named { W.name to.new ≡ W.name to.old }
{
    let Selection { parts, whole } = match select_lines(alloc, text) {
        Ok(selection) => selection,
        Err(fault) => return Err(JoinFault::Lines(fault)),
    };
    let parts = parts.as_slice();
    if let Err(fault) = files.check_apart(parts) {
        return Err(JoinFault::Paths(fault));
    }
    if let Err(fault) = check_sizes(files, parts) {
        return Err(JoinFault::Sizes(fault));
    }
    match write_parts(alloc, files, parts, to) {
        Ok(()) => Ok(whole.fault),
        Err(fault) => Err(JoinFault::Writing(fault)),
    }
}
