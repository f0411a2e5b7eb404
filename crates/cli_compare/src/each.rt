//! The packets of a capture that two filters treat differently: the function under `bpftap compare`.

ghost use Rattle.std.specs.Prelude.{◌≡◌, ◌≢◌, ◌↔◌, ◌<◌, ◌≤◌, ◌+◌, ◌^◌, ℕ, List, [], Option, refl, Err, IfErr, IfOk};
ghost use Rattle.std.specs.Io.KnownBytes.{Consumes};
ghost use Rattle.std.proofs.KnownBytes.{Appends-kept, Appends-nil};
ghost use Rattle.cli_answers.specs.Counts.{of_capture};
ghost use Rattle.cli_compare.specs.Compared.{Compares, IsBegun, IsOneBroken, IsPrinted, PrintsOne};
ghost use Rattle.cli_compare.specs.Pairs.{Fit, agreement, counted, no_counts, plus};
ghost use Rattle.cli_compare.specs.Printed.{line_of};

use crate::line::{Comparing, put_counts, put_difference};
use crate::pair::{Agreement, FilterPair};
use bpfvm::NoMemory;
use cli_answers::PacketForm;
use cli_answers::counts::PacketCounts;
use cli_answers::form::PacketLine;
use cli_answers::lines::{PacketPrinter, Printed, print_capture};
use cli_answers::printing::Unprinted;
use cli_watch::frames::{FrameCounts, is_unseen};
use line_text::sending::send;
use savefile::{Fault, PacketRef, Source};
use std::alloc::Global;
use std::io::Write;

/// How many packets two filters were asked, and how many of these only one accepts; and into how many frames no filter looks.
#[derive(Clone, Copy, Debug, PartialEq, Eq)]
pub struct DifferenceCounts {
    pub packets: u64,
    /// How many only the first filter accepts.
    pub first: u64,
    /// How many only the second filter accepts.
    pub second: u64,
    /// How many are IPv6 or have a VLAN tag.
    pub unseen: u64,
}

impl DifferenceCounts {
    /// How many packets one filter accepts and the other does not.
    pub fn differ(self) -> u128
        ensures { result ≡ self.first + self.second }
    {
        u128::from(self.first) + u128::from(self.second)
    }

    /// The frames, and into how many of them no filter looks.
    pub fn frames(self) -> FrameCounts
        ensures frames { result.frames ≡ self.packets }
        ensures unseen { result.unseen ≡ self.unseen }
    {
        FrameCounts {
            frames: self.packets,
            unseen: self.unseen,
        }
    }

    /// Counts one packet more, whose frame is unseen or not.
    fn count(&mut self, agreement: Agreement, is_unseen: bool)
        requires room { self.now.packets + 1 < 2 ^ 64 }
        requires first { self.now.first ≤ self.now.packets }
        requires second { self.now.second ≤ self.now.packets }
        requires unseen { self.now.unseen ≤ self.now.packets }
        ensures { self.new ≡ counted agreement is_unseen self.old }
    {
        if is_unseen {
            self.unseen += 1;
        }
        self.packets += 1;
        match agreement {
            Agreement::Same => {}
            Agreement::FirstOnly => self.first += 1,
            Agreement::SecondOnly => self.second += 1,
        }
    }
}

impl PacketCounts for DifferenceCounts {
    ghost none = { no_counts };

    ghost sum = { plus };

    ghost fit = { Fit };

    ghost line_in = { line_of };

    fn none() -> DifferenceCounts {
        DifferenceCounts {
            packets: 0,
            first: 0,
            second: 0,
            unseen: 0,
        }
    }

    fn plus(self, other: DifferenceCounts) -> DifferenceCounts {
        DifferenceCounts {
            packets: self.packets.saturating_add(other.packets),
            first: self.first.saturating_add(other.first),
            second: self.second.saturating_add(other.second),
            unseen: self.unseen.saturating_add(other.unseen),
        }
    }

    /// `253 packets: 3 differ, 2 accepted by the first alone, 1 by the second`, or an object with these.
    fn put(self, form: PacketForm, line: &mut String) -> Result<(), NoMemory> {
        put_counts(line, form, self)
    }
}

/// Prints a line for each packet of a capture that one of two filters accepts and the other does not.
///
/// `place 2 time 1600000000.000000000 len 98 captured 98 first Yes tcp port 8080 second No 0 at 3: ret #0`: the packet's place in the
/// capture, from 0, when it was captured, its length on the wire and how many bytes of it were captured; and what each filter answers and
/// why, as `bpftap explain` prints it; or an object of JSON with the same. No and Abort are the same here, since both reject the packet.
/// `counts` are of all packets.
///
/// Each line is sent before the next packet is read, and the writer is flushed whenever the source has to be asked for that. `read` has the header's fault, and then nothing is printed; with
/// [`Fault::NoMemory`] the source is as it was too. It has the fault of the first torn or bad record, after the lines of the packets before
/// it. It is [`Fault::Device`] exactly if the source failed. If `printed` has a fault, `out` took a prefix of the lines, and `read` is `Ok`,
/// since no further packet was read.
pub fn compare_each<R: Source, O: Write>(
    alloc: Global,
    from: R,
    pair: &FilterPair,
    form: PacketForm,
    out: &mut O,
) -> Printed<R, DifferenceCounts>
    // Which packets differ, with which answers, what was printed, and how that ended.
    ensures compares { Compares R.left from form pair.now (O.contents out.old) (O.contents out.new) result }

    // The next bytes of the source are taken, and its fault is reported exactly if it failed.
    ensures gave { (given : List ℕ) × Consumes (R.left from) (R.left result.source) given }
    ensures source_broke { (result.read ≡ Err Fault.Device) ↔ (R.failures result.source ≢ R.failures from) }
{
    print_capture(alloc, from, &Comparing { pair, form }, out)
}

impl PacketPrinter<DifferenceCounts> for Comparing<'_> {
    ghost printed = { λ c packets old new counts. IsPrinted c.form c.pair.now packets old new counts };

    ghost begun = { λ c packets old new. IsBegun c.form c.pair.now packets old new };

    ghost nth = { λ c n. record { pair = c.pair; form = of_capture c.form n } };

    ghost starts = { λ c old. ([], record { those = refl; answered = tt }, Appends-nil old, record { packets = refl; first = refl; second = refl; unseen = refl }) };

    ghost stays = { λ c packets old mid new counts was kept. (was.0, was.1, Appends-kept old mid new _ was.2 kept, was.3) };

    fn of_capture(self, number: usize) -> Self {
        Comparing {
            form: self.form.of_capture(number),
            ..self
        }
    }

    fn print<O: Write>(
        &self,
        packet: &PacketRef<'_>,
        buffer: &mut PacketLine,
        counts: &mut DifferenceCounts,
        out: &mut O,
    ) -> Result<(), Unprinted> {
        match print_one(self, counts.packets, packet, buffer, out) {
            Ok(agreement) => {
                counts.count(agreement, is_unseen(packet.bytes));
                Ok(())
            }
            Err(unprinted) => Err(unprinted),
        }
    }
}

/// Prints the line of a packet, if it is treated differently.
fn print_one<O: Write>(
    comparing: &Comparing<'_>,
    place: u64,
    packet: &PacketRef<'_>,
    buffer: &mut PacketLine,
    out: &mut O,
) -> Result<Agreement, Unprinted>
    ensures is { IfOk result (λ found. found ≡ agreement comparing.now.pair.now packet.now) }
    ensures ok { IfOk result (λ found. PrintsOne comparing.now.form comparing.now.pair.now place packet.now (O.contents out.old) (O.contents out.new)) }
    ensures fault { IfErr result (IsOneBroken comparing.now.form comparing.now.pair.now place packet.now (O.contents out.old) (O.contents out.new)) }
{
    let found = comparing.pair.compare(packet);
    if !found.is_different() {
        return Ok(found);
    }
    put_difference(buffer, comparing, place, packet)?;
    send(buffer.line.as_bytes(), out)?;
    Ok(found)
}
