//! Texts for people: expressions, faults and the version.

ghost use Rattle.std.specs.Prelude.{◌≡◌, IfErr, IfOk, Result, List, ℕ};
ghost use Rattle.bpftap_c.specs.declared.outcome.Failure.{Failure};
ghost use Rattle.bpftap_c.specs.Memory.{DeliversText, PutsText};
ghost use Rattle.bpftap_c.specs.Texts.{version, IsPrinted};

use crate::filters::expression_of;
use crate::memory::put_text;
use crate::outcome::{BpftapResult, Failure, failed};
use filter_print::Canonical;
use line_text::Line;
use std::alloc::Global;

/// The canonical text of an expression, or why there is none.
fn printed(alloc: Global, text: &[u8]) -> Result<String, Failure>
    ensures ok { IfOk result (λ line. IsPrinted text.now (Result.Ok (Rattle.std.specs.Prelude.string_bytes line))) }
    ensures err { IfErr result (λ failure. IsPrinted text.now (Result.Err failure)) }
{
    let expr = match expression_of(alloc, text) {
        Ok(expr) => expr,
        Err(failure) => return Err(failure),
    };
    let mut line = String::new(alloc);
    match write!(line, "{}", Canonical(&expr)) {
        Ok(()) => Ok(line),
        Err(_) => Err(Failure::NoMemory),
    }
}

/// Writes the canonical text of an expression.
#[unsafe(no_mangle)]
pub extern "C" fn bpftap_print(alloc: Global, text: &[u8], to: &mut [u8]) -> BpftapResult
    ensures { (made : Result (List ℕ) Failure) × IsPrinted text.now made × DeliversText made to.old to.new result }
{
    match printed(alloc, text) {
        Ok(line) => put_text(line.as_bytes(), to),
        Err(failure) => failed(failure),
    }
}

/// The version of the library, and the processor that it is made for.
const VERSION: &str = "2.8.0 x86-64-v2";

/// Writes the version, and after a blank the processor that the library is made for.
#[unsafe(no_mangle)]
pub extern "C" fn bpftap_version(to: &mut [u8]) -> BpftapResult
    ensures { PutsText version to.old to.new result }
{
    put_text(VERSION.as_bytes(), to)
}

/// The name of a fault.
fn fault_name(fault: u32) -> &'static str {
    match fault {
        0 => "Ok",
        1 => "NoMemory",
        2 => "NoRoom",
        3 => "NotText",
        4 => "End",
        16..=22 => program_fault_name(fault),
        24 => "BadLine",
        25 => "Count",
        32..=50 => expression_fault_name(fault),
        64..=73 => capture_fault_name(fault),
        80 => "BadCapacity",
        88..=91 => steps_fault_name(fault),
        _ => "Unknown",
    }
}

fn program_fault_name(fault: u32) -> &'static str {
    match fault {
        16 => "Empty",
        17 => "TooMany",
        18 => "UnknownCode",
        19 => "JumpOut",
        20 => "Cell",
        21 => "ZeroDivisor",
        _ => "NoReturn",
    }
}

fn expression_fault_name(fault: u32) -> &'static str {
    match fault {
        32 => "TextTooLong",
        33 => "BadByte",
        34 => "BadWord",
        35 => "BadNumber",
        36 => "Syntax",
        37 => "NoQualifier",
        38 => "BadQualifier",
        39 => "BadIdentifier",
        40 => "NetBits",
        41 => "OutOfRange",
        42 => "DivideByZero",
        43 => "TooNested",
        48 => "TooLong",
        49 => "TooDeep",
        50 => "BadSnap",
        _ => "Unknown",
    }
}

fn capture_fault_name(fault: u32) -> &'static str {
    match fault {
        64 => "ShortHeader",
        65 => "NotSavefile",
        66 => "Version",
        67 => "LinkType",
        68 => "TornRecord",
        69 => "BadFraction",
        70 => "RecordTooLong",
        71 => "Device",
        72 => "Failed",
        _ => "CountFull",
    }
}

fn steps_fault_name(fault: u32) -> &'static str {
    match fault {
        88 => "Listeners",
        89 => "Script",
        90 => "StepsTooMany",
        _ => "NoListener",
    }
}

/// Whether a fault has a place.
fn has_place(fault: u32) -> bool {
    matches!(fault, 3 | 18..=21 | 24 | 33..=43 | 68..=70 | 88 | 89 | 91)
}

/// The line of a fault: its name, and its place if it has one.
fn fault_line(fault: u32, place: usize) -> Line {
    let mut line = Line::new();
    let name = fault_name(fault);
    // A line has room for a name and a number.
    let _ = if has_place(fault) {
        write!(line, "{name} {place}")
    } else {
        write!(line, "{name}")
    };
    line
}

/// Writes the name of a fault, and its place if it has one, as the program prints it; but a name
/// stands for one number, so that what the program prints as `TooLong` of a record is
/// `RecordTooLong`, and as `TooMany` of steps `StepsTooMany`. It takes no memory, since it may have
/// to name the fault that there is none.
#[unsafe(no_mangle)]
pub extern "C" fn bpftap_fault_text(fault: u32, place: usize, to: &mut [u8]) -> BpftapResult
    ensures { (text : List ℕ) × PutsText text to.old to.new result }
{
    put_text(fault_line(fault, place).as_bytes(), to)
}
