//! What a command asks of captures: its filter, and the captures, over files that contracts can
//! know.

ghost use Rattle.std.specs.Prelude.{◌≡◌, [], true, Some, None, IfOk, IfErr, IfSome, OnOk, option_copied};
ghost use Rattle.cli_files.specs.declared.paths.Opening.TheVariants.{First};
ghost use Rattle.cli_files.specs.Reading.{IsRefusedMemory};
ghost use Rattle.cli_store.specs.Files.{IsUnprinted, Keeps};
ghost use Rattle.cli_answers.specs.Asked.{AreUnprinted, IsAsked, IsAskedFor, IsPrintedTo, IsUnasked, IsUngiven};

use crate::filter::{AskedFilter, of_expression, of_program};
use crate::opened::open_captures;
use cli_files::paths::{Opening, PathFault};
use cli_files::reading::MAX_TEXT;
use cli_filter::{FilterFault, filter};
use cli_store::FileStore;
use filtergen::ExpressionFault;
use std::alloc::Global;
use std::io::{self, ErrorKind};

/// Why no capture is asked.
#[derive(Debug, Drop)]
pub enum Unasked<'p> {
    /// There is no filter. The text of the listing is kept for a hint.
    Filter(Option<Vec<u8>>, FilterFault),
    /// The text of this listing has more than [`MAX_TEXT`] bytes.
    TextTooLong(&'p str),
    /// Standard output goes to a file that is read; or it is unknown where a path leads; or memory
    /// was refused.
    Paths(PathFault<'p>),
    /// This file could not be read or opened.
    File(&'p str, io::Error),
}

/// A filter, and the captures that it is asked of.
#[derive(Drop)]
pub struct Asked<I> {
    pub filter: AskedFilter,
    pub captures: Vec<I>,
}

/// The error of a file for which memory was refused.
fn no_memory() -> io::Error
    ensures { IsRefusedMemory result }
{
    io::Error::new(ErrorKind::OutOfMemory, "out of memory")
}

/// The program of the listing at a path.
#[inline(never)]
fn filter_of_listing<'p, F: FileStore<'p>>(
    alloc: Global,
    files: &mut F,
    path: &'p str,
) -> Result<AskedFilter, Unasked<'p>>
    ensures kept { Keeps (F.place files.old) (F.place files.new) (F.text files.old) (F.text files.new) (F.pending files.old) (F.pending files.new) }
    ensures printed { F.printed files.new ≡ F.printed files.old }
    ensures opened { F.opened files.new ≡ F.opened files.old }
    ensures given { F.known ≡ true → IfOk result (IsAskedFor (F.place files.old) (F.text files.old) (Some path.entry.now) None) }
    ensures refused { F.known ≡ true → IfErr result (IsUngiven (F.place files.old) (F.text files.old) (F.failed files.new) (Some path.entry.now) None) }
{
    match files.read(path, MAX_TEXT + 1) {
        Err(error) => Err(Unasked::File(path, error)),
        Ok(text) if text.as_slice().len() > MAX_TEXT => Err(Unasked::TextTooLong(path)),
        Ok(text) => match filter(alloc, Some(text.as_slice()), None, 0) {
            Ok(program) => match of_program(alloc, program) {
                Ok(filter) => Ok(filter),
                Err(_) => Err(Unasked::File(path, no_memory())),
            },
            Err(fault) => Err(Unasked::Filter(Some(text), fault)),
        },
    }
}

/// The filter of the listing's file, or of the expression; without either that of the empty
/// expression.
pub fn read_asked<'p, F: FileStore<'p>>(
    alloc: Global,
    files: &mut F,
    listing: Option<&'p str>,
    expr: Option<&'p str>,
) -> Result<AskedFilter, Unasked<'p>>
    ensures kept { Keeps (F.place files.old) (F.place files.new) (F.text files.old) (F.text files.new) (F.pending files.old) (F.pending files.new) }
    ensures printed { F.printed files.new ≡ F.printed files.old }
    ensures opened { F.opened files.new ≡ F.opened files.old }
    ensures given { F.known ≡ true → IfOk result (IsAskedFor (F.place files.old) (F.text files.old) (option_copied listing.entry) (option_copied expr.entry)) }
    ensures refused { F.known ≡ true → IfErr result (IsUngiven (F.place files.old) (F.text files.old) (F.failed files.new) (option_copied listing.entry) (option_copied expr.entry)) }
{
    match (listing, expr) {
        (Some(path), None) => filter_of_listing(alloc, files, path),
        (Some(_), Some(_)) => Err(Unasked::Filter(None, FilterFault::Twice)),
        (None, expr) => match of_expression(alloc, expr.unwrap_or("")) {
            Ok(filter) => Ok(filter),
            Err(fault) => {
                let fault = FilterFault::Expression(ExpressionFault::Text(fault));
                Err(Unasked::Filter(None, fault))
            }
        },
    }
}

/// Checks that standard output does not go to the listing's file, if there is a listing.
fn check_listing<'p, F: FileStore<'p>>(
    files: &mut F,
    listing: Option<&'p str>,
) -> Result<(), PathFault<'p>>
    ensures kept { Keeps (F.place files.old) (F.place files.new) (F.text files.old) (F.text files.new) (F.pending files.old) (F.pending files.new) }
    ensures printed { F.printed files.new ≡ F.printed files.old }
    ensures apart { F.known ≡ true → OnOk result (IfSome (option_copied listing.entry) (IsUnprinted First (F.place files.old) (F.text files.old) (F.printed files.old))) }
    ensures refused { F.known ≡ true → IfErr result (IsPrintedTo (F.place files.old) (F.printed files.old) (F.failed files.new) (option_copied listing.entry) []) }
{
    match listing {
        None => Ok(()),
        Some(path) => match files.check_apart(Opening::First, true, &[path], &[]) {
            Ok(()) => Ok(()),
            Err(fault) => Err(fault),
        },
    }
}

/// Checks that standard output goes to no file that is read: neither the listing nor a capture. A
/// path that leads to no file is left to who opens it.
pub fn check_read<'p, F: FileStore<'p>>(
    files: &mut F,
    listing: Option<&'p str>,
    inputs: &[&'p str],
) -> Result<(), PathFault<'p>>
    ensures kept { Keeps (F.place files.old) (F.place files.new) (F.text files.old) (F.text files.new) (F.pending files.old) (F.pending files.new) }
    ensures printed { F.printed files.new ≡ F.printed files.old }
    ensures listing { F.known ≡ true → OnOk result (IfSome (option_copied listing.entry) (IsUnprinted First (F.place files.old) (F.text files.old) (F.printed files.old))) }
    ensures captures { F.known ≡ true → OnOk result (AreUnprinted (F.place files.old) (F.text files.old) (F.printed files.old) inputs.now) }
    ensures refused { F.known ≡ true → IfErr result (IsPrintedTo (F.place files.old) (F.printed files.old) (F.failed files.new) (option_copied listing.entry) inputs.now) }
{
    match check_listing(files, listing) {
        Ok(()) => files.check_apart(Opening::First, true, inputs, &[]),
        Err(fault) => Err(fault),
    }
}

/// Accepts the filter, compares the paths, and opens the captures late, in this order. Nothing is
/// printed.
pub fn ask<'p, F: FileStore<'p>>(
    alloc: Global,
    files: &mut F,
    listing: Option<&'p str>,
    expr: Option<&'p str>,
    inputs: &[&'p str],
) -> Result<Asked<F::Input>, Unasked<'p>>
    ensures kept { Keeps (F.place files.old) (F.place files.new) (F.text files.old) (F.text files.new) (F.pending files.old) (F.pending files.new) }
    ensures asks { F.known ≡ true → IfOk result (IsAsked F.Input.left F.Input.failures (F.place files.old) (F.text files.old) (F.printed files.old) (option_copied listing.entry) (option_copied expr.entry) inputs.now) }
    ensures refused { F.known ≡ true → IfErr result (IsUnasked (F.place files.old) (F.text files.old) (F.printed files.old) (F.failed files.new) (option_copied listing.entry) (option_copied expr.entry) inputs.now) }
{
    let filter = read_asked(alloc, files, listing, expr)?;
    if let Err(fault) = check_read(files, listing, inputs) {
        return Err(Unasked::Paths(fault));
    }
    let captures = open_captures(alloc, files, inputs)?;
    Ok(Asked { filter, captures })
}
