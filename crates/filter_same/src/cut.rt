//! Answers that no packet shows: those that need more captured bytes than were on the wire, or an
//! IPv4 header of another length.

ghost use Rattle.std.specs.Prelude.{◌≡◌, ◌<◌, ◌≤◌, ◌^◌, length, Some, IfOk, IfSome};
ghost use Rattle.filter_symbols.specs.Packets.{HasHeader};
ghost use Rattle.filter_symbols.specs.Symbols.{Extends};
ghost use Rattle.filter_same.specs.Same.{IsCaptured};
ghost use Rattle.filter_same.specs.Findings.{KeepsNo};

use filter_bdd::{Answer, ByOrder, Field, Node, Operation, Stop};
use filter_diagrams::Builder;

/// A node without each No that needs `size` captured bytes or more, if the packet is shorter.
#[tactic(auto, using(filter_diagrams::proofs::Builders::extends_by, filter_diagrams::proofs::Builders::grew_more))]
fn cut_at(builder: &mut Builder, place: u32, size: u32) -> Result<u32, Stop>
    requires { place < length builder.old.symbols.words.diagrams }
    ensures keeps { IfOk result (KeepsNo IsCaptured builder.old.symbols.words.diagrams place builder.new.symbols.words.diagrams) }
    ensures extends { Extends builder.old.symbols builder.new.symbols }
{
    let wire = Field {
        last: 31,
        width: 32,
        mask: u64::MAX,
    };
    let fits = ByOrder {
        less: Answer::Final(size, false),
        equal: Answer::Final(size, true),
        greater: Answer::Final(size, true),
    };
    let long = builder
        .symbols
        .words
        .diagrams
        .compare(wire, u64::from(size), fits)?;
    builder
        .symbols
        .words
        .diagrams
        .apply(Operation::Cut, long, place)
}

/// A node without each No that needs what the one at `leaf` does or more, if the packet is
/// shorter. The node itself, if no No is there.
#[tactic(auto, using(crate::proofs::Ends::keeps_same, filter_diagrams::proofs::Builders::extends_same))]
fn cut_as(builder: &mut Builder, place: u32, leaf: u32) -> Result<u32, Stop>
    requires place { place < length builder.old.symbols.words.diagrams }
    requires leaf { leaf < length builder.old.symbols.words.diagrams }
    ensures keeps { IfOk result (KeepsNo IsCaptured builder.old.symbols.words.diagrams place builder.new.symbols.words.diagrams) }
    ensures extends { Extends builder.old.symbols builder.new.symbols }
{
    match builder.symbols.words.diagrams.node(leaf) {
        Node::Leaf(Answer::Final(need, false)) => cut_at(builder, place, need),
        _ => Ok(place),
    }
}

/// A node without each No that takes more captured bytes than were on the wire.
#[tactic(auto, using(filter_diagrams::proofs::Builders::extends_more, filter_diagrams::proofs::Builders::extends_same, filter_diagrams::proofs::Builders::inside_extended))]
pub(crate) fn cut(builder: &mut Builder, place: u32) -> Result<u32, Stop>
    requires { place < length builder.old.symbols.words.diagrams }
    ensures keeps { IfOk result (KeepsNo IsCaptured builder.old.symbols.words.diagrams place builder.new.symbols.words.diagrams) }
    ensures extends { Extends builder.old.symbols builder.new.symbols }
{
    let Ok(count) = u32::try_from(builder.symbols.words.diagrams.len()) else {
        return Err(Stop::Budget);
    };
    let mut cut = place;
    for leaf in 0..count {
        cut = cut_as(builder, cut, leaf)?;
    }
    Ok(cut)
}

/// A node without each No that needs the first byte of an IPv4 header of another length than
/// `words`.
#[tactic(auto, using(filter_diagrams::proofs::Builders::extends_by, filter_diagrams::proofs::Builders::grew_more))]
fn cut_words(builder: &mut Builder, place: u32, words: u32) -> Result<u32, Stop>
    requires place { place < length builder.old.symbols.words.diagrams }
    requires words { words < 16 }
    ensures keeps { IfOk result (KeepsNo (HasHeader (Some words)) builder.old.symbols.words.diagrams place builder.new.symbols.words.diagrams) }
    ensures extends { Extends builder.old.symbols builder.new.symbols }
{
    let low = Field {
        last: 151,
        width: 4,
        mask: u64::MAX,
    };
    let same = ByOrder {
        less: Answer::Final(15, false),
        equal: Answer::Final(15, true),
        greater: Answer::Final(15, false),
    };
    let header = builder
        .symbols
        .words
        .diagrams
        .compare(low, u64::from(words), same)?;
    builder
        .symbols
        .words
        .diagrams
        .apply(Operation::Cut, header, place)
}

/// A node without each No that needs an IPv4 header of another length, if the length is known.
#[tactic(auto, using(crate::proofs::Ends::keeps_same, filter_diagrams::proofs::Builders::extends_same))]
pub(crate) fn cut_header(builder: &mut Builder, place: u32) -> Result<u32, Stop>
    requires place { place < length builder.old.symbols.words.diagrams }
    requires header { IfSome builder.old.symbols.header (λ n. n < 16) }
    ensures keeps { IfOk result (KeepsNo (HasHeader builder.old.symbols.header) builder.old.symbols.words.diagrams place builder.new.symbols.words.diagrams) }
    ensures extends { Extends builder.old.symbols builder.new.symbols }
{
    match builder.symbols.header {
        Some(words) => cut_words(builder, place, words),
        None => Ok(place),
    }
}
