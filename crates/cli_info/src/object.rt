//! The object of a capture, in JSON.

ghost use Rattle.std.specs.Prelude.{◌≡◌, ◌++◌, OnOk, string_bytes};
ghost use Rattle.cli_info.specs.Objects.{contents_json, end_json, header_json, kinds_json, lengths_json, moment_json, moments_json, number_of_packets_json, object_json, totals_json};

use crate::line::{order_word, unit_word};
use line_text::put_string;
use pcap_info::contents::{Contents, KindCounts, Moment};
use pcap_info::survey::CaptureSurvey;
use savefile::{Fault, Header};
use std::alloc::AllocError;

/// Appends how many packets there are.
fn put_number(line: &mut String, packets: u64) -> Result<(), AllocError>
    ensures { OnOk result (string_bytes line.new ≡ string_bytes line.old ++ number_of_packets_json packets) }
{
    write!(line, ",\"packets\":{packets}")
}

/// Appends how long all packets were on the wire, and how many bytes of them were captured.
fn put_lengths(line: &mut String, len: u64, captured: u64) -> Result<(), AllocError>
    ensures { OnOk result (string_bytes line.new ≡ string_bytes line.old ++ lengths_json len captured) }
{
    write!(line, ",\"length\":{len},\"captured\":{captured}")
}

/// Appends how many packets there are, and how many bytes of them.
#[tactic(auto, unfolding(crate::specs::Objects::totals_json))]
fn put_totals(line: &mut String, contents: &Contents) -> Result<(), AllocError>
    ensures { OnOk result (string_bytes line.new ≡ string_bytes line.old ++ totals_json contents.now) }
{
    put_number(line, contents.packets)?;
    put_lengths(line, contents.len, contents.captured)
}

/// Appends a moment after its name, if there is one.
fn put_moment(line: &mut String, name: &str, moment: Option<Moment>) -> Result<(), AllocError>
    ensures { OnOk result (string_bytes line.new ≡ string_bytes line.old ++ moment_json name.now moment) }
{
    match moment {
        Some(Moment { sec, nanos }) => {
            write!(line, ",\"{name}\":{{\"seconds\":{sec}")?;
            write!(line, ",\"nanoseconds\":{nanos}}}")
        }
        None => Ok(()),
    }
}

/// Appends when the first packet was captured, and the last one.
fn put_moments(line: &mut String, contents: &Contents) -> Result<(), AllocError>
    ensures { OnOk result (string_bytes line.new ≡ string_bytes line.old ++ moments_json contents.now) }
{
    put_moment(line, "first", contents.first)?;
    put_moment(line, "last", contents.last)
}

/// Appends how many frames there are of each kind.
#[tactic(auto, unfolding(crate::specs::Objects::kinds_json))]
fn put_kinds(line: &mut String, kinds: KindCounts) -> Result<(), AllocError>
    ensures { OnOk result (string_bytes line.new ≡ string_bytes line.old ++ kinds_json kinds) }
{
    write!(line, ",\"ipv4\":{},\"arp\":{}", kinds.ipv4, kinds.arp)?;
    write!(line, ",\"ipv6\":{},\"vlan\":{}", kinds.ipv6, kinds.vlan)?;
    write!(line, ",\"other\":{}", kinds.other)
}

/// Appends what the header says.
#[tactic(auto, unfolding(crate::specs::Objects::header_json))]
fn put_header(line: &mut String, header: Header) -> Result<(), AllocError>
    ensures { OnOk result (string_bytes line.new ≡ string_bytes line.old ++ header_json header) }
{
    let Header { order, unit, snap } = header;
    write!(line, ",\"order\":\"{}\"", order_word(order))?;
    write!(line, ",\"unit\":\"{}\",\"snap\":{snap}", unit_word(unit))
}

/// Appends what a capture has, if its header was read.
fn put_contents(
    line: &mut String,
    header: Option<Header>,
    contents: &Contents,
) -> Result<(), AllocError>
    ensures { OnOk result (string_bytes line.new ≡ string_bytes line.old ++ contents_json header contents.now) }
{
    let Some(header) = header else {
        return Ok(());
    };
    put_totals(line, contents)?;
    put_moments(line, contents)?;
    put_kinds(line, contents.kinds)?;
    put_header(line, header)
}

/// Appends the fault that ended the capture, if one did, and the end of the object.
fn put_end(line: &mut String, read: Result<(), Fault>) -> Result<(), AllocError>
    ensures { OnOk result (string_bytes line.new ≡ string_bytes line.old ++ end_json read) }
{
    let Err(fault) = read else {
        return line.push_str("}\n");
    };
    let name = fault.name();
    match fault.place() {
        Some(place) => write!(line, ",\"fault\":\"{name}\",\"numbers\":[{place}]}}\n"),
        None => write!(line, ",\"fault\":\"{name}\",\"numbers\":[]}}\n"),
    }
}

/// Appends the object of the capture at a path: what it has, if its header was read, and the fault
/// that ended it, if one did.
///
/// `{"file":"a.pcap","packets":1,"length":60,"captured":60,"first":{"seconds":1,"nanoseconds":0},"last":{"seconds":1,"nanoseconds":0},
/// "ipv4":1,"arp":0,"ipv6":0,"vlan":0,"other":0,"order":"little","unit":"micro","snap":262144}`, on
/// one line; `"fault":"TornRecord", "numbers":[1]` at its end if there is a fault; no `first` and
/// `last` if there is no packet.
pub fn put_object<R>(
    line: &mut String,
    path: &str,
    survey: &CaptureSurvey<R>,
) -> Result<(), AllocError>
    ensures { OnOk result (string_bytes line.new ≡ string_bytes line.old ++ object_json path.now survey.now.header survey.now.contents survey.now.read) }
{
    line.push_str("{\"file\":")?;
    put_string(line, path)?;
    put_contents(line, survey.header, &survey.contents)?;
    put_end(line, survey.read)
}
