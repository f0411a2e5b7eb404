//! How many packets of a capture a filter accepts: the function under `bpftap explain -c`.

ghost use Rattle.std.specs.Prelude.{◌≡◌, ◌≢◌, ◌↔◌, ◌++◌, ◌∷◌, ℕ, List, [], Option, Err, option_copied};
ghost use Rattle.std.specs.Io.KnownBytes.{Consumes};
ghost use Rattle.savefile.specs.declared.header.Header.{Header};
ghost use Rattle.savefile.specs.declared.packet.Packet.{Packet as Frame};
ghost use Rattle.savefile.specs.Reader.{HasGiven};
ghost use Rattle.cli_answers.specs.Counts.{no_counts};
ghost use Rattle.cli_count.specs.Counting.{Counts, CountsTo, IsTaken};

use crate::filter::CountedFilter;
use bpfvm::{Program, count_instructions};
use cli_answers::counts::VerdictCounts;
use cli_watch::frames::is_unseen;
use filter_meaning::Verdict;
use savefile::{Fault, PacketRef, Reader, Source};
use std::alloc::Global;

/// How many packets of a capture a filter accepts.
#[derive(Debug, Drop)]
pub struct CountEnd<R> {
    pub source: R,
    /// Whether the header was read.
    pub opened: bool,
    /// Of all packets, or of those before the fault.
    pub counts: VerdictCounts,
    /// How many instructions the program took for these packets, if that was asked for and there is
    /// one.
    pub taken: Option<u64>,
    /// The fault that ended the capture, if one did.
    pub read: Result<(), Fault>,
}

/// Counts what a filter answers to the packets of a capture, and if that is asked for how many
/// instructions its program takes for them. It takes the memory of a reader, however long the
/// capture is.
///
/// `read` has the fault: that of the header, and then no packet was read; with [`Fault::NoMemory`]
/// the source is as it was too; that of the first torn or bad record, by its place;
/// [`Fault::Device`] if and only if the source failed; or [`Fault::CountFull`] after 2^64 - 1
/// packets.
pub fn count_packets<R: Source>(
    alloc: Global,
    from: R,
    filter: &CountedFilter,
    is_measured: bool,
) -> CountEnd<R>
    // What was counted, and how the reading ended.
    ensures counts { Counts R.left from filter.now is_measured result }

    // The next bytes of the source are taken, and its fault is reported exactly if it failed.
    ensures gave { (given : List ℕ) × Consumes (R.left from) (R.left result.source) given }
    ensures source_broke { (result.read ≡ Err Fault.Device) ↔ (R.failures result.source ≢ R.failures from) }
{
    let mut counts = VerdictCounts::NONE;
    let mut reader = match Reader::open(alloc, from) {
        Ok(reader) => reader,
        Err((source, fault)) => {
            return CountEnd {
                source,
                opened: false,
                counts,
                taken: None,
                read: Err(fault),
            };
        }
    };
    let Answered { taken, read } = count_all(&mut reader, filter, is_measured, &mut counts);
    CountEnd {
        source: reader.close(),
        opened: true,
        counts,
        taken,
        read,
    }
}

/// The instructions that a program took so far, and those for one packet more, if there is a
/// program.
#[inline(always)]
fn taken_after(
    program: Option<&Program>,
    packet: &PacketRef<'_>,
    before: Option<u64>,
) -> Option<u64>
    ensures { (packets : List Frame) → IsTaken (option_copied program.entry) packets before → IsTaken (option_copied program.entry) (packets ++ packet.now ∷ []) result }
{
    match (program, before) {
        (Some(program), Some(before)) => {
            let instructions = count_instructions(program, packet.bytes, packet.len);
            Some(before.saturating_add(instructions as u64))
        }
        _ => before,
    }
}

/// What is counted of no packet.
fn nothing_taken(program: Option<&Program>) -> Option<u64>
    ensures { IsTaken (option_copied program.entry) [] result }
{
    match program {
        Some(_) => Some(0),
        None => None,
    }
}

/// How counting the packets of a reader ended.
struct Answered {
    taken: Option<u64>,
    read: Result<(), Fault>,
}

/// Counts what a filter answers to all packets of a capture, and the instructions of its program.
fn count_all<R: Source>(
    reader: &mut Reader<R>,
    filter: &CountedFilter,
    is_measured: bool,
    counts: &mut VerdictCounts,
) -> Answered
    requires { counts.now ≡ no_counts }
    ensures counts { (from : Option (List ℕ)) (header : Header) → HasGiven R.left from header [] reader.old →
        CountsTo from (R.left reader.new.source) header filter.now is_measured counts.new result.taken result.read }
    ensures taken { (bytes : List ℕ) × Consumes (R.left reader.old.source) (R.left reader.new.source) bytes }
    ensures source_broke { (result.read ≡ Err Fault.Device) ↔ (R.failures reader.new.source ≢ R.failures reader.old.source) }
{
    // Packets that come after one another are mostly answered alike.
    let mut likely = Verdict::No;
    let program = filter.measured_program(is_measured);
    let mut charged = nothing_taken(program);
    loop {
        match reader.advance() {
            Ok(true) => {
                let packet = reader.packet();
                likely = filter.judge(&packet, likely);
                charged = taken_after(program, &packet, charged);
                counts.count(likely, is_unseen(packet.bytes));
            }
            Ok(false) => return Answered {
                taken: charged,
                read: Ok(()),
            },
            Err(fault) => {
                return Answered {
                    taken: charged,
                    read: Err(fault),
                };
            }
        }
    }
}
