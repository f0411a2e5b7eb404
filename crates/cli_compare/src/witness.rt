//! The savefile of a packet that shows a difference.

ghost use Rattle.std.specs.Prelude.{◌≡◌, ◌≢◌, ◌↔◌, ◌⊎◌, ◌<◌, ◌∷◌, [], ◌^◌, Err, IfErr, length, OnOk, OnErr};
ghost use Rattle.std.specs.Io.KnownBytes.{Appends};
ghost use Rattle.savefile.specs.Savefile.{encoded};
ghost use Rattle.line_text.specs.Sending.{TakesPart};
ghost use Rattle.cli_compare.specs.Deciding.{packet_of_witness};

use filter_same::Witness;
use savefile::{Fault, MAX_SNAP, Order, Sink, Unit, Writer};

/// Writes a savefile with a witness as its one packet, at time 0: little-endian, in microseconds, of the largest snapshot length.
///
/// The fault is [`Fault::Device`], exactly if the sink failed, which then took a prefix of the savefile; or [`Fault::TooLong`] of record 0,
/// and nothing was written, exactly of a witness of more than 262,144 bytes.
#[tactic(auto, using(crate::proofs::Sent::no_header, crate::proofs::Sent::no_packet, crate::proofs::Sent::only_header))]
pub fn write_witness<W: Sink>(sink: W, witness: &Witness) -> (W, Result<(), Fault>)
    ensures ok { OnOk result.1 (Appends (W.taken sink) (W.taken result.0) (encoded Order.Little Unit.Micro (2 ^ 18) (packet_of_witness witness.now ∷ []))) }
    ensures err { OnErr result.1 (TakesPart (W.taken sink) (W.taken result.0) (encoded Order.Little Unit.Micro (2 ^ 18) (packet_of_witness witness.now ∷ []))) }

    ensures named { W.name result.0 ≡ W.name sink }

    // When each error comes, and no other.
    ensures broke { (result.1 ≡ Err Fault.Device) ↔ (W.failures result.0 ≢ W.failures sink) }
    ensures too_long { (result.1 ≡ Err (Fault.TooLong 0)) ↔ (2 ^ 18 < length witness.now.bytes.items) }
    ensures unwritten { 2 ^ 18 < length witness.now.bytes.items → result.0 ≡ sink }
    ensures only { IfErr result.1 (λ fault. (fault ≡ Fault.Device) ⊎ (fault ≡ Fault.TooLong 0)) }
{
    let bytes = witness.bytes.as_slice();
    if bytes.len() > MAX_SNAP as usize {
        return (sink, Err(Fault::TooLong(0)));
    }
    let (mut writer, opened) = Writer::open(sink, Order::Little, Unit::Micro, MAX_SNAP);
    if let Err(fault) = opened {
        return (writer.close().0, Err(fault));
    }
    match writer.put(0, 0, witness.wire, bytes) {
        Ok(()) => (writer.close().0, Ok(())),
        Err(fault) => (writer.close().0, Err(fault)),
    }
}
