//! The parts of a split: what each asks for, and how it ended.

ghost use Rattle.std.specs.Prelude.{◌≡◌, ◌<◌, ◌≤◌, ◌+◌, ◌^◌, ◌++◌, ◌∷◌, List, [], length, vec_capacity};
ghost use Rattle.std.specs.List.{AllZip};
ghost use Rattle.savefile.specs.Savefile.{IsWritable};
ghost use Rattle.savefile.specs.declared.header.Order.{Order};
ghost use Rattle.savefile.specs.declared.header.Unit.{Unit};
ghost use Rattle.savefile.specs.declared.packet.Packet.{Packet};
ghost use Rattle.cli_split.specs.Standing.{HasHandedOn, HasTaken, IsEndOf, IsGiven};
ghost use Rattle.cli_split.specs.Writing.{IsLeft};
ghost use Rattle.cli_split.specs.declared.part.Part.{Part};

use bpfvm::Program;
use pcap_cut::cut::{Tally, put_accepted};
use savefile::laws::growing_text;
use savefile::{Fault, GatheringSink, Order, PacketRef, Sink, Unit, Writer, effective_snaplen};

/// A capture that is to be written.
#[derive(Drop)]
pub struct Part<W> {
    /// The filter: it accepts a packet if its answer is not 0.
    pub program: Program,
    /// How many bytes of a packet are kept at most; 0 means 262,144. The written header has this number too.
    pub snap: u32,
    /// What the capture is written to.
    pub sink: W,
}

/// How a part ended.
#[derive(Debug, Drop)]
pub struct PartEnd<W> {
    pub sink: W,
    /// How many bytes the sink took in this call.
    pub sent: u64,
    /// How many packets were read of all captures, and how many of these the part's program accepts, if all was written.
    pub tally: Tally,
    /// Whether all was written, or why it was not.
    pub written: Result<(), Fault>,
}

/// A part that is written.
#[derive(Drop)]
pub(crate) struct Outlet<W> {
    program: Program,
    snap: u32,
    writer: Writer<W>,
    tally: Tally,
    written: Result<(), Fault>,
}

/// Begins a part: its header is written.
fn begin<W: Sink>(part: Part<W>, order: Order, unit: Unit) -> Outlet<W>
    ensures { HasTaken W.taken W.name W.failures order unit [] part result }
{
    let Part {
        program,
        snap,
        sink,
    } = part;
    let snap = effective_snaplen(snap);
    let (writer, written) = Writer::open(sink, order, unit, snap);
    Outlet {
        program,
        snap,
        writer,
        tally: Tally::NONE,
        written,
    }
}

/// Begins all parts.
pub(crate) fn begin_all<W: Sink + Drop>(
    parts: Vec<Part<W>>,
    order: Order,
    unit: Unit,
    outlets: &mut Vec<Outlet<W>>,
)
    requires room { (length outlets.old.items ≡ 0) × (length parts.items ≤ vec_capacity outlets.old) }
    ensures { AllZip (HasTaken W.taken W.name W.failures order unit []) parts.items outlets.new.items }
{
    for part in parts {
        outlets.push_reserved(begin(part, order, unit));
    }
}

/// Gives a packet to a part, unless that has failed.
fn give<W: Sink>(outlet: &mut Outlet<W>, packet: &PacketRef<'_>)
    requires writable { IsWritable packet.now }
    requires so_far { (order : Order) × (unit : Unit) × (packets : List Packet) × (part : Part W)
        × HasTaken W.taken W.name W.failures order unit packets part outlet.old × (length packets + 1 < 2 ^ 64) }
    ensures { IsGiven W.taken W.name W.failures packet.now outlet.old outlet.new }
{
    // What a failed part has written begins the text of more packets too.
    growing_text();
    if outlet.written.is_err() {
        return;
    }
    outlet.written = put_accepted(
        &mut outlet.writer,
        packet,
        &outlet.program,
        outlet.snap,
        &mut outlet.tally,
    );
}

/// Gives a packet to each part.
pub(crate) fn give_all<W: Sink>(outlets: &mut Vec<Outlet<W>>, packet: &PacketRef<'_>)
    requires writable { IsWritable packet.now }
    requires so_far { (order : Order) × (unit : Unit) × (packets : List Packet) × (parts : List (Part W))
        × AllZip (HasTaken W.taken W.name W.failures order unit packets) parts outlets.old.items × (length packets + 1 < 2 ^ 64) }
    ensures { (order : Order) (unit : Unit) (packets : List Packet) (parts : List (Part W)) →
        AllZip (HasTaken W.taken W.name W.failures order unit packets) parts outlets.old.items →
        AllZip (HasTaken W.taken W.name W.failures order unit (packets ++ packet.now ∷ [])) parts outlets.new.items }
{
    for outlet in outlets.iter_mut() {
        give(outlet, packet);
    }
}

/// Asks the sink of a part to hand on what it has gathered.
fn hand_on<W: GatheringSink>(outlet: &mut Outlet<W>)
    ensures { (order : Order) (unit : Unit) (packets : List Packet) (part : Part W) →
        HasTaken W.taken W.name W.failures order unit packets part outlet.old → HasHandedOn W.taken W.name W.failures W.waits order unit packets part outlet.new }
{
    outlet.writer.hand_on();
}

/// Asks the sinks of all parts to hand on what they have gathered.
pub(crate) fn hand_on_all<W: GatheringSink>(outlets: &mut Vec<Outlet<W>>)
    ensures { (order : Order) (unit : Unit) (packets : List Packet) (parts : List (Part W)) →
        AllZip (HasTaken W.taken W.name W.failures order unit packets) parts outlets.old.items →
        AllZip (HasHandedOn W.taken W.name W.failures W.waits order unit packets) parts outlets.new.items }
{
    for outlet in outlets.iter_mut() {
        hand_on(outlet);
    }
}

/// Ends a part.
fn close<W: Sink>(outlet: Outlet<W>) -> PartEnd<W>
    ensures { IsEndOf W.taken W.name W.failures outlet result }
{
    let Outlet {
        program: _,
        snap: _,
        writer,
        tally,
        written,
    } = outlet;
    let (sink, sent) = writer.close();
    PartEnd {
        sink,
        sent,
        tally,
        written,
    }
}

/// Ends all parts.
pub(crate) fn close_all<W: Sink + Drop>(
    outlets: Vec<Outlet<W>>,
    mut ends: Vec<PartEnd<W>>,
) -> Vec<PartEnd<W>>
    requires room { (length ends.items ≡ 0) × (length outlets.items ≤ vec_capacity ends) }
    ensures { AllZip (IsEndOf W.taken W.name W.failures) outlets.items result.items }
{
    for outlet in outlets {
        ends.push_reserved(close(outlet));
    }
    ends
}

/// The ends of parts that were not started.
pub(crate) fn leave_all<W: Sink + Drop>(parts: Vec<Part<W>>, ends: &mut Vec<PartEnd<W>>)
    requires room { (length ends.old.items ≡ 0) × (length parts.items ≤ vec_capacity ends.old) }
    ensures { AllZip IsLeft parts.items ends.new.items }
{
    for part in parts {
        ends.push_reserved(PartEnd {
            sink: part.sink,
            sent: 0,
            tally: Tally::NONE,
            written: Ok(()),
        });
    }
}
