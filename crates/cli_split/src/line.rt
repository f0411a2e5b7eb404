//! The line of a part that was written whole: text, or an object of JSON.

ghost use Rattle.std.specs.Prelude.{◌≡◌, OnOk, string_bytes};
ghost use Rattle.visible_text.specs.Hidden.{printed_name};
ghost use Rattle.cli_split.specs.Printed.{count_line, count_object, count_text};

use crate::plan::SplitLine;
use line_text::{LineForm, NamingForm, put_string};
use pcap_cut::cut::Tally;
use std::alloc::{AllocError, Global};
use visible_text::PrintedName;

/// The counts whose line is longest.
const LONGEST: Tally = Tally {
    read: u64::MAX,
    written: u64::MAX,
};

/// Puts the text of an OUT's counts in place of what the line has.
#[tactic(auto, unfolding(crate::specs::Printed::count_text))]
fn put_text(line: &mut String, output: PrintedName<'_>, tally: Tally) -> Result<(), AllocError>
    ensures { OnOk result (string_bytes line.new ≡ count_text (printed_name output.entry.is_terminal output.entry.name.now) tally) }
{
    line.clear();
    writeln!(line, "{output} {} of {}", tally.written, tally.read)
}

/// Puts the object of an OUT's counts in place of what the line has.
#[tactic(auto, unfolding(crate::specs::Printed::count_object))]
fn put_object(line: &mut String, output: &str, tally: Tally) -> Result<(), AllocError>
    ensures { OnOk result (string_bytes line.new ≡ count_object output.now tally) }
{
    line.clear();
    line.push_str("{\"file\":")?;
    put_string(line, output)?;
    writeln!(
        line,
        ",\"kept\":{},\"packets\":{}}}",
        tally.written, tally.read
    )
}

/// Puts the line of an OUT's counts in place of what the line has.
pub(crate) fn put_count(
    form: NamingForm,
    line: &mut String,
    output: &str,
    tally: Tally,
) -> Result<(), AllocError>
    ensures { OnOk result (string_bytes line.new ≡ count_line form output.now tally) }
{
    match form.form {
        LineForm::Text => put_text(line, form.named(output), tally),
        LineForm::Json => put_object(line, output, tally),
    }
}

/// A line with room for that of each OUT, whatever its counts are. So [`report`](crate::report::EndedSplit::report) needs no more memory.
pub fn line_for(
    alloc: Global,
    form: NamingForm,
    lines: &[SplitLine<'_>],
) -> Result<String, AllocError> {
    let mut room = String::new(alloc);
    for line in lines {
        put_count(form, &mut room, line.output, LONGEST)?;
    }
    Ok(room)
}
