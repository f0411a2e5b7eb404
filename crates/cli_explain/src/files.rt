//! `bpftap explain`, over files that contracts can know: the lines of all packets, and whether one is accepted.

ghost use Rattle.std.specs.Prelude.{◌≡◌, false, true, IfErr, IfOk, IsOk, OnErr};
ghost use Rattle.cli_store.specs.Files.{Keeps};
ghost use Rattle.cli_explain.specs.Explaining.{IsRefused, PrintsLines, Seeks};

use crate::captures::explain_captures;
use cli_answers::PacketForm;
use cli_answers::asked::{Asked, Unasked, ask};
use cli_answers::captures::{LinesEnd, SoughtCaptures, SoughtEnd, find_in_captures, read_of};
use cli_answers::counts::VerdictCounts;
use cli_answers::lines::{PrintedCaptures, print_totals};
use cli_answers::opened::close_captures;
use cli_args::explain::ExplainWords;
use cli_store::FileStore;
use cli_watch::output::PrintSink;
use std::alloc::Global;

/// Prints a line for each packet of the captures, in order up to the first fault, and then the counts of all. The filter is accepted, and the
/// paths are compared, before a capture is opened.
pub fn explain_files<'p, F: FileStore<'p>, O: PrintSink>(
    alloc: Global,
    files: &mut F,
    words: &ExplainWords<'p>,
    out: &mut O,
) -> Result<LinesEnd<VerdictCounts>, Unasked<'p>>
    ensures kept { Keeps (F.place files.old) (F.place files.new) (F.text files.old) (F.text files.new) (F.pending files.old) (F.pending files.new) }
    ensures prints { F.known ≡ true → IfOk result (PrintsLines F.Input.left F.Input.failures O.contents (F.place files.old) (F.text files.old) (F.printed files.old) (F.failed files.new) words.now out.old out.new) }
    ensures refused { F.known ≡ true → IfErr result (IsRefused (F.place files.old) (F.text files.old) (F.printed files.old) (F.failed files.new) words.now) }
    ensures silent { OnErr result (out.new ≡ out.old) }
    ensures handed_on { O.waits out.old ≡ false → IfOk result (λ end. IsOk end.read → IsOk end.printed → O.waits out.new ≡ false) }
{
    let inputs = words.inputs.as_slice();
    let Asked { filter, captures } = ask(alloc, files, words.listing, words.expr, inputs)?;
    let form = PacketForm::asked(words.json);
    let PrintedCaptures {
        sources,
        totals,
        read,
    } = explain_captures(alloc, captures, &filter, form, out);
    let noted = close_captures(files, sources, read);
    let counts = totals.counts;
    Ok(LinesEnd {
        counts,
        read,
        noted,
        printed: print_totals(alloc, totals, form, out),
    })
}

/// Looks for the first packet of the captures that the filter accepts. It prints nothing.
pub fn seek_files<'p, F: FileStore<'p>>(
    alloc: Global,
    files: &mut F,
    words: &ExplainWords<'p>,
) -> Result<SoughtEnd, Unasked<'p>>
    ensures kept { Keeps (F.place files.old) (F.place files.new) (F.text files.old) (F.text files.new) (F.pending files.old) (F.pending files.new) }
    ensures seeks { F.known ≡ true → IfOk result (Seeks F.Input.left F.Input.failures (F.place files.old) (F.text files.old) (F.printed files.old) (F.failed files.new) words.now) }
    ensures refused { F.known ≡ true → IfErr result (IsRefused (F.place files.old) (F.text files.old) (F.printed files.old) (F.failed files.new) words.now) }
{
    let paths = words.inputs.as_slice();
    let Asked { filter, captures } = ask(alloc, files, words.listing, words.expr, paths)?;
    let SoughtCaptures { sources, found } = find_in_captures(alloc, captures, &filter);
    let noted = close_captures(files, sources, read_of(found));
    Ok(SoughtEnd { found, noted })
}
