//! `bpftap check`, over files that contracts can know.

ghost use Rattle.std.specs.Prelude.{◌≡◌, true, false, None, IfOk, IfErr, OnErr, OnOk, option_copied};
ghost use Rattle.cli_store.specs.Files.{Keeps};
ghost use Rattle.cli_cut.specs.Checking.{Checks, IsAskedFor, IsUnasked, PrintsProgram, PrintsProgramObject, form_for};

use crate::object::{check_object, show_object};
use crate::outcome::Refusal;
use crate::plan::{program, program_of_listing};
use crate::print::{PrintFault, ProgramForm, show, show_read};
use bpfvm::Program;
use cli_args::check::CheckWords;
use cli_files::paths::Opening;
use cli_store::FileStore;
use cli_watch::output::PrintSink;
use std::alloc::Global;

/// The form for this many options `-d`.
fn form_for(named: u8) -> ProgramForm
    ensures { result ≡ form_for named }
{
    match named {
        1 => ProgramForm::Image,
        2 => ProgramForm::Array,
        _ => ProgramForm::Listing,
    }
}

/// The program that is printed: that of the listing's file, to which standard output may not go, or
/// that of the expression.
fn read_program<'p, F: FileStore<'p>>(
    alloc: Global,
    files: &mut F,
    words: &CheckWords<'p>,
) -> Result<Program, Refusal<'p>>
    ensures kept { Keeps (F.place files.old) (F.place files.new) (F.text files.old) (F.text files.new) (F.pending files.old) (F.pending files.new) }
    ensures given { F.known ≡ true → IfOk result (IsAskedFor (F.place files.old) (F.text files.old) (F.printed files.old) (option_copied words.now.listing) (option_copied words.now.expr) words.now.snap) }
    ensures refused { F.known ≡ true → IfErr result (IsUnasked (F.place files.old) (F.text files.old) (F.printed files.old) (F.failed files.new) (F.denied files.new) (option_copied words.now.listing) (option_copied words.now.expr) words.now.snap) }
{
    let Some(path) = words.listing else {
        return program(alloc, files, None, words.expr, words.snap);
    };
    match files.check_apart(Opening::First, true, &[path], &[]) {
        Ok(()) => program_of_listing(alloc, files, path),
        Err(fault) => Err(Refusal::Paths(fault)),
    }
}

/// Prints what is asked for: an object, the expression as it was read, or a program in some form.
/// Nothing is printed before the program is accepted, and no file changes.
pub fn check_files<'p, F: FileStore<'p>, O: PrintSink>(
    alloc: Global,
    files: &mut F,
    words: &CheckWords<'p>,
    out: &mut O,
) -> Result<Result<(), PrintFault>, Refusal<'p>>
    ensures kept { Keeps (F.place files.old) (F.place files.new) (F.text files.old) (F.text files.new) (F.pending files.old) (F.pending files.new) }
    ensures checks { F.known ≡ true → IfOk result (Checks (F.place files.old) (F.text files.old) (F.printed files.old) (O.contents out.old) (O.contents out.new) words.now) }
    ensures refused { F.known ≡ true → IfErr result (IsUnasked (F.place files.old) (F.text files.old) (F.printed files.old) (F.failed files.new) (F.denied files.new) (option_copied words.now.listing) (option_copied words.now.expr) words.now.snap) }
    ensures silent { OnErr result (out.new ≡ out.old) }
    ensures handed_on { IfOk result (λ printed. OnOk printed (O.waits out.new ≡ false)) }
{
    match (words.expr, words.json, words.read) {
        (Some(expr), true, _) => Ok(check_object(alloc, expr, words.snap, out)),
        (Some(expr), false, true) => Ok(show_read(alloc, expr, out)),
        (_, true, _) => {
            let program = read_program(alloc, files, words)?;
            Ok(show_object(alloc, None, &program, out))
        }
        (_, false, _) => {
            let program = read_program(alloc, files, words)?;
            Ok(show(alloc, &program, form_for(words.named), out))
        }
    }
}
