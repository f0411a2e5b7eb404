//! `bpftap check --dot`, over files.

use crate::run::run_of;
use bpfvm::Program;
use cli_answers::asked::check_read;
use cli_args::check::GraphWords;
use cli_files::paths::report_path;
use cli_filter::{program_of_expression, program_of_file};
use cli_report::HintSink;
use cli_report::failures::hint_unprinted;
use cli_store::DiskFiles;
use cli_text::Status;
use cli_watch::{Screen, Watch};
use fault_report::reporting::{report_memory, report_output};
use line_text::sending::send;
use program_graph::write_graph;
use std::fs::Files;
use std::io::Write;

/// The program of a listing's file, or of an expression.
fn read_program<R: Files + AllocGlobal, E: HintSink>(
    rt: &R,
    words: &GraphWords<'_>,
    err: &mut E,
) -> Result<Program, Status> {
    match words.listing {
        Some(path) => program_of_file(rt, path, err),
        None => program_of_expression(rt, words.expr, words.snap, err),
    }
}

/// Refuses, with a line on `err`, a file that is read if standard output goes to it.
fn check_paths<R: Files + AllocGlobal + Screen, E: HintSink>(
    rt: &R,
    words: &GraphWords<'_>,
    err: &mut E,
) -> Result<(), Status> {
    let watch = Watch::new(rt, &[], false);
    let mut files = DiskFiles::new(rt, &watch);
    let checked = match words.packet {
        Some(packet) => check_read(&mut files, words.listing, &[packet.input]),
        None => check_read(&mut files, words.listing, &[]),
    };
    match checked {
        Ok(()) => Ok(()),
        Err(fault) => Err(report_path(&fault, err)),
    }
}

/// Prints a text, and reports that standard output failed, if it did.
fn print_text<O: Write, E: HintSink>(text: &str, out: &mut O, err: &mut E) -> Status {
    let printed = send(text.as_bytes(), out);
    let status = report_output(&printed, err);
    if let Err(error) = printed {
        hint_unprinted(&error, err);
    }
    status
}

/// Reads the filter and the packet, and prints the graph.
fn print_graph<R: Files + AllocGlobal + Screen, O: Write, E: HintSink>(
    rt: &R,
    words: &GraphWords<'_>,
    out: &mut O,
    err: &mut E,
) -> Result<Status, Status> {
    check_paths(rt, words, err)?;
    let program = read_program(rt, words, err)?;
    let run = run_of(rt, &program, words.packet, err)?;
    match write_graph(rt.alloc(), &program, run.as_slice()) {
        Ok(text) => Ok(print_text(text.as_str(), out, err)),
        Err(_) => Err(report_memory(err)),
    }
}

/// `bpftap check --dot`: prints the graph of a program, with the way of a packet marked if one is
/// named. No file that is read is the one that is printed to.
pub fn graph_command<R: Files + AllocGlobal + Screen, O: Write, E: HintSink>(
    rt: &R,
    words: &GraphWords<'_>,
    out: &mut O,
    err: &mut E,
) -> Status {
    match print_graph(rt, words, out, err) {
        Ok(status) | Err(status) => status,
    }
}
