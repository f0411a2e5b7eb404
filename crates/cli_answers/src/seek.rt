//! Whether a capture has a packet that passes a test: the function under `bpftap explain -q`.

ghost use Rattle.std.specs.Prelude.{◌≡◌, ◌≢◌, ◌↔◌, ℕ, Bool, List, Option, [], Err};
ghost use Rattle.std.specs.Io.KnownBytes.{Consumes};
ghost use Rattle.savefile.specs.declared.header.Header.{Header};
ghost use Rattle.savefile.specs.declared.packet.Packet.{Packet};
ghost use Rattle.savefile.specs.Reader.{HasGiven};
ghost use Rattle.cli_answers.specs.Seeking.{accepts, GoesToFirst, Seeks};

use crate::filter::AskedFilter;
use bpfvm::run;
use filter_meaning::{Verdict, evaluate};
use savefile::laws::given_so_far;
use savefile::{Fault, PacketRef, Reader, Source};
use std::alloc::Global;

/// A test that a packet passes or fails.
pub trait PacketTest {
    /// Whether a packet passes.
    ghost passed: { Self → Packet → Bool };

    /// Whether a packet passes.
    fn passes(&self, packet: &PacketRef<'_>) -> bool
        ensures { result ≡ passed self.now packet.now };
}

/// A packet passes if the filter accepts it: its expression answers Yes, or its program returns a
/// number other than 0.
impl PacketTest for AskedFilter {
    ghost passed = { λ filter p. accepts filter p };

    fn passes(&self, packet: &PacketRef<'_>) -> bool {
        match self {
            AskedFilter::Expression(expr) => matches!(
                evaluate(expr, packet.bytes, packet.len),
                Verdict::Yes
            ),
            AskedFilter::Program(program) => run(program, packet.bytes, packet.len) > 0,
        }
    }
}

/// What looking for a packet came to.
#[derive(Debug, Drop)]
pub struct Sought<R> {
    pub source: R,
    /// Whether the capture has such a packet, or why it could not be read so far.
    pub found: Result<bool, Fault>,
}

/// Looks for the first packet of a capture that passes a test. It prints nothing.
///
/// `found` is `Ok(true)` at that packet, and then no further one is read; `Ok(false)` if the
/// capture ends without one; or the fault that comes before one: the header's, that of a torn or
/// bad record, or [`Fault::Device`], exactly if the source failed. With [`Fault::NoMemory`] the
/// source is as it was.
pub fn find_first<R: Source, T: PacketTest>(alloc: Global, from: R, test: &T) -> Sought<R>
    // Whether there is such a packet.
    ensures seeks { Seeks R.left from (T.passed test.now) result }

    // The next bytes of the source are taken, and its fault is reported exactly if it failed.
    ensures gave { (given : List ℕ) × Consumes (R.left from) (R.left result.source) given }
    ensures source_broke { (result.found ≡ Err Fault.Device) ↔ (R.failures result.source ≢ R.failures from) }
{
    let mut reader = match Reader::open(alloc, from) {
        Ok(reader) => reader,
        Err((source, fault)) => {
            return Sought {
                source,
                found: Err(fault),
            };
        }
    };
    let found = go_to_first(&mut reader, test);
    // What was read so far begins what the capture holds.
    given_so_far(&reader);
    Sought {
        source: reader.close(),
        found,
    }
}

/// Goes on to the first packet that passes a test.
fn go_to_first<R: Source, T: PacketTest>(reader: &mut Reader<R>, test: &T) -> Result<bool, Fault>
    ensures goes { (from : Option (List ℕ)) (header : Header) → HasGiven R.left from header [] reader.old →
        GoesToFirst R.left from header (T.passed test.now) reader.new result }
    ensures taken { (bytes : List ℕ) × Consumes (R.left reader.old.source) (R.left reader.new.source) bytes }
    ensures source_broke { (result ≡ Err Fault.Device) ↔ (R.failures reader.new.source ≢ R.failures reader.old.source) }
{
    loop {
        match reader.advance() {
            Ok(true) => {
                if test.passes(&reader.packet()) {
                    return Ok(true);
                }
            }
            Ok(false) => return Ok(false),
            Err(fault) => return Err(fault),
        }
    }
}
