//! Packets that are read while others wait for what is printed of them.

ghost use Rattle.std.specs.Prelude.{◌≡◌, ◌≢◌, ◌↔◌, ◌-◌, ◌^◌, ◌++◌, ◌∷◌, [], ℕ, List, Option, None, Ok, Err, IfErr, false, true};
ghost use Rattle.std.specs.Io.KnownBytes.{Consumes, Keeps};
ghost use Rattle.savefile.specs.declared.header.Header.{Header};
ghost use Rattle.savefile.specs.declared.packet.Packet.{Packet};
ghost use Rattle.savefile.specs.Reader.{GoesOn, HasGiven, HasRecord, IsCause, Leaves, WasBegun, WasRead};

use savefile::laws::given_so_far;
use savefile::{Fault, Reader, Source};
use std::io::Write;

/// Goes on to the next packet, as [`Reader::advance`] does. Before the source is asked for it the
/// output hands on what it has gathered: so whoever reads along has all that was printed while the
/// source is waited for, and of a file it is printed in large pieces. What can't be handed on stays
/// with the output, whose next error is that. No clause says that nothing waits afterwards, since
/// contracts know of no `Write` whether bytes wait in it.
#[inline(always)]
pub fn advance_flushed<R: Source, O: Write>(
    reader: &mut Reader<R>,
    out: &mut O,
) -> Result<bool, Fault>
    ensures packet { (start : Option (List ℕ)) (header : Header) (packets : List Packet) → HasGiven R.left start header packets reader.old →
        result ≡ Ok true → HasGiven R.left start header (packets ++ reader.new.lent ∷ []) reader.new }
    ensures end { (start : Option (List ℕ)) (header : Header) (packets : List Packet) → HasGiven R.left start header packets reader.old →
        result ≡ Ok false → WasRead start header packets None }
    ensures cause { (start : Option (List ℕ)) (header : Header) (packets : List Packet) → HasGiven R.left start header packets reader.old →
        IfErr result (IsCause start (R.left reader.new.source) header packets) }
    ensures so_far { (start : Option (List ℕ)) (header : Header) (packets : List Packet) → HasGiven R.left start header packets reader.old →
        WasBegun start header packets }
    ensures device { (result ≡ Err Fault.Device) ↔ (R.failures reader.new.source ≢ R.failures reader.old.source) }
    ensures leaves { Leaves reader.old reader.new result }
    ensures taken { (bytes : List ℕ) × Consumes (R.left reader.old.source) (R.left reader.new.source) bytes }

    // What was printed stays, and while a record waits nothing is handed on.
    ensures printed { Keeps (O.contents out.old) (O.contents out.new) }
    ensures ahead { GoesOn reader.old × (reader.old.given ≢ 2 ^ 64 - 1) × HasRecord reader.old.header reader.old.ahead → out.new ≡ out.old }
{
    given_so_far(reader);
    if reader.advance_ahead() {
        return Ok(true);
    }
    let _ = out.flush();
    reader.advance()
}
