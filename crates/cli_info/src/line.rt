//! The line of a capture.

ghost use Rattle.std.specs.Prelude.{◌≡◌, ◌++◌, OnOk, Some, string_bytes};
ghost use Rattle.cli_info.specs.Lines.{contents_text, end_text, header_text, kinds_text, moment_text, moments_text, order_text, rest_of_line, totals_text, unit_text};

use line_text::time::NineDigits;
use pcap_info::contents::{Contents, KindCounts, Moment};
use pcap_info::survey::CaptureSurvey;
use savefile::{Fault, Header, Order, Unit};
use std::alloc::AllocError;

/// Appends how many packets there are, and how many bytes of them.
#[tactic(auto, unfolding(crate::specs::Lines::totals_text))]
fn put_totals(line: &mut String, contents: &Contents) -> Result<(), AllocError>
    ensures { OnOk result (string_bytes line.new ≡ string_bytes line.old ++ totals_text contents.now) }
{
    let Contents {
        packets,
        len,
        captured,
        ..
    } = *contents;
    write!(line, " packets {packets} len {len} captured {captured}")
}

/// Appends a moment after its name, if there is one.
fn put_moment(line: &mut String, name: &str, moment: Option<Moment>) -> Result<(), AllocError>
    ensures { OnOk result (string_bytes line.new ≡ string_bytes line.old ++ moment_text name.now moment) }
{
    match moment {
        Some(Moment { sec, nanos }) => write!(line, " {name} {sec}.{}", NineDigits(nanos)),
        None => Ok(()),
    }
}

/// Appends when the first packet was captured, and the last one.
fn put_moments(line: &mut String, contents: &Contents) -> Result<(), AllocError>
    ensures { OnOk result (string_bytes line.new ≡ string_bytes line.old ++ moments_text contents.now) }
{
    put_moment(line, "first", contents.first)?;
    put_moment(line, "last", contents.last)
}

/// Appends how many frames there are of each kind.
#[tactic(auto, unfolding(crate::specs::Lines::kinds_text))]
fn put_kinds(line: &mut String, kinds: KindCounts) -> Result<(), AllocError>
    ensures { OnOk result (string_bytes line.new ≡ string_bytes line.old ++ kinds_text kinds) }
{
    write!(line, " ipv4 {} arp {}", kinds.ipv4, kinds.arp)?;
    write!(line, " ipv6 {} vlan {}", kinds.ipv6, kinds.vlan)?;
    write!(line, " other {}", kinds.other)
}

/// The word of a byte order.
pub(crate) fn order_word(order: Order) -> &'static str
    ensures { result.now ≡ order_text order }
{
    match order {
        Order::Little => "little",
        Order::Big => "big",
    }
}

/// The word of a unit of time.
pub(crate) fn unit_word(unit: Unit) -> &'static str
    ensures { result.now ≡ unit_text unit }
{
    match unit {
        Unit::Micro => "micro",
        Unit::Nano => "nano",
    }
}

/// Appends what the header says.
#[tactic(auto, unfolding(crate::specs::Lines::header_text))]
fn put_header(line: &mut String, header: Header) -> Result<(), AllocError>
    ensures { OnOk result (string_bytes line.new ≡ string_bytes line.old ++ header_text header) }
{
    let Header { order, unit, snap } = header;
    write!(
        line,
        " {} {} snap {snap}",
        order_word(order),
        unit_word(unit)
    )
}

/// Appends how the capture ends.
fn put_end(line: &mut String, read: Result<(), Fault>) -> Result<(), AllocError>
    ensures { OnOk result (string_bytes line.new ≡ string_bytes line.old ++ end_text read) }
{
    match read {
        Ok(()) => line.push_str(" Clean\n"),
        Err(fault) => write!(line, " {fault}\n"),
    }
}

/// Appends what a capture has, if its header was read.
fn put_contents(
    line: &mut String,
    header: Option<Header>,
    contents: &Contents,
) -> Result<(), AllocError>
    ensures { OnOk result (string_bytes line.new ≡ string_bytes line.old ++ contents_text header contents.now) }
{
    let Some(header) = header else {
        return Ok(());
    };
    put_totals(line, contents)?;
    put_moments(line, contents)?;
    put_kinds(line, contents.kinds)?;
    put_header(line, header)
}

/// Appends the line of a capture after its path: what it has, if its header was read, and how it
/// ends.
///
/// ` packets 253 len 31415 captured 31415 first 1795332718.563134000 last 1795332729.130040000 ipv4
/// 246 arp 7 ipv6 0 vlan 0 other 0 little micro snap 262144
/// Clean`, on one line; the fault's name and place in place of `Clean`; no `first` and `last` if
/// there is no packet.
pub fn put_rest_of_line<R>(line: &mut String, survey: &CaptureSurvey<R>) -> Result<(), AllocError>
    ensures { OnOk result (string_bytes line.new ≡ string_bytes line.old ++ rest_of_line survey.now.header survey.now.contents survey.now.read) }
{
    put_contents(line, survey.header, &survey.contents)?;
    put_end(line, survey.read)
}
