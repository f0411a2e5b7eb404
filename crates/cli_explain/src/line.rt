//! The line of a packet.

ghost use Rattle.std.specs.Prelude.{◌≡◌, ℕ, List, IfOk, string_bytes};
ghost use Rattle.cli_answers.specs.Answers.{answer, IsAnswer};
ghost use Rattle.cli_answers.specs.Objects.{IsAnswerIn, IsJsonAnswer};
ghost use Rattle.cli_explain.specs.Forms.{answer_json, line_in};
ghost use Rattle.cli_explain.specs.Printed.{answer_line};

use crate::form::Asking;
use bpfvm::NoMemory;
use cli_answers::form::PacketLine;
use cli_answers::line::{put_answer, put_packet};
use cli_answers::{AskedFilter, PacketForm, json};
use filter_meaning::Verdict;
use savefile::PacketRef;

/// Puts the text of a packet in place of what the line has: its place and time, what the filter answers, and why.
fn put_text(
    line: &mut String,
    filter: &AskedFilter,
    place: u64,
    packet: &PacketRef<'_>,
) -> Result<Verdict, NoMemory>
    ensures { IfOk result (λ verdict. (reason : List ℕ) × IsAnswer filter.now (answer packet.now verdict reason)
        × (string_bytes line.new ≡ answer_line place (answer packet.now verdict reason))) }
{
    put_packet(line, place, packet)?;
    let verdict = put_answer(line, filter, packet)?;
    line.push('\n')?;
    Ok(verdict)
}

/// Puts the object of a packet in place of what the line has: where it is, its time and lengths, what the filter answers, and why.
fn put_object(
    buffer: &mut PacketLine,
    filter: &AskedFilter,
    capture: usize,
    place: u64,
    packet: &PacketRef<'_>,
) -> Result<Verdict, NoMemory>
    ensures { IfOk result (λ verdict. (reason : List ℕ) × IsJsonAnswer filter.now (answer packet.now verdict reason)
        × (string_bytes buffer.new.line ≡ answer_json capture place (answer packet.now verdict reason))) }
{
    json::put_packet(&mut buffer.line, capture, place, packet)?;
    let verdict = json::put_answer(&mut buffer.line, &mut buffer.text, filter, packet)?;
    buffer.line.push_str("}\n")?;
    Ok(verdict)
}

/// Puts the line of a packet in place of what the line has: its place and time, what the filter answers, and why.
pub(crate) fn put_line(
    buffer: &mut PacketLine,
    asking: &Asking<'_>,
    place: u64,
    packet: &PacketRef<'_>,
) -> Result<Verdict, NoMemory>
    ensures { IfOk result (λ verdict. (reason : List ℕ) × IsAnswerIn asking.now.form asking.now.filter.now (answer packet.now verdict reason)
        × (string_bytes buffer.new.line ≡ line_in asking.now.form place (answer packet.now verdict reason))) }
{
    match asking.form {
        PacketForm::Text => put_text(&mut buffer.line, asking.filter, place, packet),
        PacketForm::Json(capture) => put_object(buffer, asking.filter, capture, place, packet),
    }
}
