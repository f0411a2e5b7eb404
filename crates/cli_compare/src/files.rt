//! `bpftap compare` by captures, over files that contracts can know: the packets that are treated
//! differently, and whether there is one.

ghost use Rattle.std.specs.Prelude.{◌≡◌, false, true, IfErr, IfOk, IsOk, OnErr};
ghost use Rattle.cli_store.specs.Files.{Keeps};
ghost use Rattle.cli_compare.specs.Comparing.{IsRefused, PrintsLines, Seeks};

use crate::asked::{PairAsked, Uncompared, ask_pair};
use crate::captures::compare_captures;
use crate::each::DifferenceCounts;
use cli_answers::PacketForm;
use cli_answers::captures::{LinesEnd, SoughtCaptures, SoughtEnd, find_in_captures, read_of};
use cli_answers::lines::{PrintedCaptures, print_totals};
use cli_answers::opened::close_captures;
use cli_args::compare::CompareWords;
use cli_store::FileStore;
use cli_watch::output::PrintSink;
use std::alloc::Global;

/// Prints a line for each packet of the captures that the filters treat differently, in order up to
/// the first fault, and then the counts of all. The filters are accepted, and the paths are
/// compared, before a capture is opened.
pub fn compare_files<'p, F: FileStore<'p>, O: PrintSink>(
    alloc: Global,
    files: &mut F,
    words: &CompareWords<'p>,
    out: &mut O,
) -> Result<LinesEnd<DifferenceCounts>, Uncompared<'p>>
    ensures kept { Keeps (F.place files.old) (F.place files.new) (F.text files.old) (F.text files.new) (F.pending files.old) (F.pending files.new) }
    ensures prints { F.known ≡ true → IfOk result (PrintsLines F.Input.left F.Input.failures O.contents (F.place files.old) (F.text files.old) (F.printed files.old) (F.failed files.new) words.now out.old out.new) }
    ensures refused { F.known ≡ true → IfErr result (IsRefused (F.place files.old) (F.text files.old) (F.printed files.old) (F.failed files.new) words.now) }
    ensures silent { OnErr result (out.new ≡ out.old) }
    ensures handed_on { O.waits out.old ≡ false → IfOk result (λ end. IsOk end.read → IsOk end.printed → O.waits out.new ≡ false) }
{
    let PairAsked { pair, captures } = ask_pair(alloc, files, words)?;
    let form = PacketForm::asked(words.json);
    let PrintedCaptures {
        sources,
        totals,
        read,
    } = compare_captures(alloc, captures, &pair, form, out);
    let noted = close_captures(files, sources, read);
    let counts = totals.counts;
    Ok(LinesEnd {
        counts,
        read,
        noted,
        printed: print_totals(alloc, totals, form, out),
    })
}

/// Looks for the first packet of the captures that the filters treat differently. It prints
/// nothing.
pub fn seek_files<'p, F: FileStore<'p>>(
    alloc: Global,
    files: &mut F,
    words: &CompareWords<'p>,
) -> Result<SoughtEnd, Uncompared<'p>>
    ensures kept { Keeps (F.place files.old) (F.place files.new) (F.text files.old) (F.text files.new) (F.pending files.old) (F.pending files.new) }
    ensures seeks { F.known ≡ true → IfOk result (Seeks F.Input.left F.Input.failures (F.place files.old) (F.text files.old) (F.printed files.old) (F.failed files.new) words.now) }
    ensures refused { F.known ≡ true → IfErr result (IsRefused (F.place files.old) (F.text files.old) (F.printed files.old) (F.failed files.new) words.now) }
{
    let PairAsked { pair, captures } = ask_pair(alloc, files, words)?;
    let SoughtCaptures { sources, found } = find_in_captures(alloc, captures, &pair);
    let noted = close_captures(files, sources, read_of(found));
    Ok(SoughtEnd { found, noted })
}
