//! A line for each packet of a capture: the function under `bpftap explain`.

ghost use Rattle.std.specs.Prelude.{◌≡◌, ◌≢◌, ◌↔◌, ℕ, List, Err};
ghost use Rattle.std.specs.Io.KnownBytes.{Consumes};
ghost use Rattle.cli_explain.specs.Explained.{Explains};

use crate::form::Asking;
use cli_answers::counts::VerdictCounts;
use cli_answers::lines::{Printed, PrintedTotals, print_capture, print_totals};
use cli_answers::{AskedFilter, PacketForm};
use cli_watch::output::PrintSink;
use savefile::{Fault, Source};
use std::alloc::Global;

/// Prints a line for each packet of a capture, and then one with the counts.
///
/// `place 2 time 1600000000.000000000 len 98 captured 98 Yes tcp port 8080`: the packet's place in the capture, from 0, when it
/// was captured, its length on the wire and how many bytes of it were captured; what the filter answers; and the primitive or
/// relation that decides, after `not` if an odd number of these apply to it. An Abort has its cause. A program answers Yes
/// where it returns a number other than 0, No where it returns 0, and Abort where its run ends at a byte that was not captured
/// or a division by 0; after that come the number, and the place and name of the instruction where the run ended. The last
/// line is `253 packets: 67 Yes, 186 No, 0 Abort`. In JSON each line is an object with the same numbers:
/// `{"capture":0,"place":2,"seconds":1600000000,"nanoseconds":0,"length":98,"captured":98,"answer":"yes","decided":"tcp port 8080"}`.
///
/// Each line is sent before the next packet is read. `read` has the header's fault, and then nothing is printed; with
/// [`Fault::NoMemory`] the source is as it was too. It has the fault of the first torn or bad record, after the line of the counts. It is
/// [`Fault::Device`] exactly if the source failed. If `printed` has a fault, `out` took a prefix of the lines, and `read` is `Ok`, since no
/// further packet was read; or it took all lines of the packets, and a prefix of that of the counts.
pub fn explain_each<R: Source, O: PrintSink>(
    alloc: Global,
    from: R,
    filter: &AskedFilter,
    form: PacketForm,
    out: &mut O,
) -> Printed<R, VerdictCounts>
    // What was answered, what was printed, and how that ended.
    ensures explains { Explains R.left from form filter.now (O.contents out.old) (O.contents out.new) result }

    // The next bytes of the source are taken, and its fault is returned if and only if it failed.
    ensures gave { (given : List ℕ) × Consumes (R.left from) (R.left result.source) given }
    ensures source_broke { (result.read ≡ Err Fault.Device) ↔ (R.failures result.source ≢ R.failures from) }
{
    let Printed {
        source,
        opened,
        counts,
        read,
        printed,
    } = print_capture(alloc, from, &Asking { filter, form }, out);
    let totals = PrintedTotals {
        opened,
        counts,
        printed,
    };
    let printed = print_totals(alloc, totals, form, out);
    Printed {
        source,
        opened,
        counts,
        read,
        printed,
    }
}
