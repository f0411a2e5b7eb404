//! What is asked and printed of a packet.

ghost use Rattle.std.specs.Prelude.{◌≡◌, ℕ, List, [], Option, refl, IfErr, IfOk};
ghost use Rattle.std.proofs.KnownBytes.{Appends-kept, Appends-nil};
ghost use Rattle.cli_answers.specs.Counts.{of_capture};
ghost use Rattle.cli_explain.specs.Explained.{IsBegun, IsLineBroken, IsPrinted, PrintsLine};

use crate::line::put_line;
use cli_answers::counts::VerdictCounts;
use cli_answers::form::PacketLine;
use cli_answers::lines::PacketPrinter;
use cli_answers::printing::Unprinted;
use cli_answers::{AskedFilter, PacketForm};
use cli_watch::frames::is_unseen;
use filter_meaning::Verdict;
use line_text::sending::send;
use savefile::PacketRef;
use std::io::Write;

/// A filter that is asked, and the form in which its answers are printed.
#[derive(Clone, Copy)]
pub(crate) struct Asking<'a> {
    pub(crate) filter: &'a AskedFilter,
    pub(crate) form: PacketForm,
}

impl PacketPrinter<VerdictCounts> for Asking<'_> {
    ghost printed = { λ a packets old new c. IsPrinted a.form a.filter.now packets old new c };

    ghost begun = { λ a packets old new. IsBegun a.form a.filter.now packets old new };

    ghost nth = { λ a n. record { filter = a.filter; form = of_capture a.form n } };

    ghost starts = { λ a old. ([], refl, tt, Appends-nil old, record { packets = refl; yes = refl; no = refl; abort = refl; unseen = refl }) };

    ghost stays = { λ a packets old mid new c was kept. (was.0, was.1, was.2, Appends-kept old mid new _ was.3 kept, was.4) };

    fn of_capture(self, number: usize) -> Self {
        Asking {
            form: self.form.of_capture(number),
            ..self
        }
    }

    fn print<O: Write>(
        &self,
        packet: &PacketRef<'_>,
        buffer: &mut PacketLine,
        counts: &mut VerdictCounts,
        out: &mut O,
    ) -> Result<(), Unprinted> {
        match print_line(self, counts.packets, packet, buffer, out) {
            Ok(verdict) => {
                counts.count(verdict, is_unseen(packet.bytes));
                Ok(())
            }
            Err(unprinted) => Err(unprinted),
        }
    }
}

/// Prints the line of a packet.
#[inline(always)]
pub(crate) fn print_line<O: Write>(
    asking: &Asking<'_>,
    place: u64,
    packet: &PacketRef<'_>,
    buffer: &mut PacketLine,
    out: &mut O,
) -> Result<Verdict, Unprinted>
    ensures ok { IfOk result (PrintsLine asking.now.form asking.now.filter.now place packet.now (O.contents out.old) (O.contents out.new)) }
    ensures fault { IfErr result (IsLineBroken asking.now.form asking.now.filter.now place packet.now (O.contents out.old) (O.contents out.new)) }
{
    let verdict = put_line(buffer, asking, place, packet)?;
    send(buffer.line.as_bytes(), out)?;
    Ok(verdict)
}
