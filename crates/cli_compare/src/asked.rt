//! What `bpftap compare` asks for: two filters, and the captures, over files that contracts can
//! know.

ghost use Rattle.std.specs.Prelude.{◌≡◌, true, IfErr, IfOk, OnOk};
ghost use Rattle.cli_store.specs.Files.{Keeps};
ghost use Rattle.cli_compare.specs.Comparing.{AreApart, ArePair, Asks, IsRefused, IsShared, IsUnpaired, path_of, read_paths};

use crate::pair::FilterPair;
use cli_answers::asked::{Unasked, read_asked};
use cli_answers::opened::open_captures;
use cli_args::compare::CompareWords;
use cli_files::paths::{Opening, PathFault};
use cli_store::FileStore;
use std::alloc::{AllocError, Global};

/// Why two filters are not compared.
#[derive(Debug, Drop)]
pub enum Uncompared<'p> {
    /// There is no first filter.
    First(Unasked<'p>),
    /// There is no second filter.
    Second(Unasked<'p>),
    /// The paths are refused, or a capture is not opened.
    Files(Unasked<'p>),
}

/// Two filters, and the captures that they are asked of.
#[derive(Drop)]
pub struct PairAsked<I> {
    pub pair: FilterPair,
    pub captures: Vec<I>,
}

/// The two filters, the first one first.
fn read_pair<'p, F: FileStore<'p>>(
    alloc: Global,
    files: &mut F,
    words: &CompareWords<'p>,
) -> Result<FilterPair, Uncompared<'p>>
    ensures kept { Keeps (F.place files.old) (F.place files.new) (F.text files.old) (F.text files.new) (F.pending files.old) (F.pending files.new) }
    ensures printed { F.printed files.new ≡ F.printed files.old }
    ensures opened { F.opened files.new ≡ F.opened files.old }
    ensures pair { F.known ≡ true → IfOk result (ArePair (F.place files.old) (F.text files.old) words.now) }
    ensures refused { F.known ≡ true → IfErr result (IsUnpaired (F.place files.old) (F.text files.old) (F.failed files.new) words.now) }
{
    let first = match read_asked(alloc, files, None, Some(words.first)) {
        Ok(filter) => filter,
        Err(reason) => return Err(Uncompared::First(reason)),
    };
    match read_asked(alloc, files, words.listing, words.second) {
        Ok(second) => Ok(FilterPair { first, second }),
        Err(reason) => Err(Uncompared::Second(reason)),
    }
}

/// The paths of all files that are read.
fn read_paths<'p>(alloc: Global, words: &CompareWords<'p>) -> Result<Vec<&'p str>, AllocError>
    ensures { IfOk result (λ paths. paths.items ≡ read_paths words.now) }
{
    let mut paths = Vec::from_slice(alloc, words.inputs.as_slice())?;
    if let Some(listing) = words.listing {
        paths.push(listing)?;
    }
    Ok(paths)
}

/// The path of OUT, if there is one.
#[tactic(auto, using(crate::proofs::Asking::written_is))]
fn written_paths<'w, 'p>(words: &'w CompareWords<'p>) -> &'w [&'p str]
    ensures { result.now ≡ path_of words.now.output }
{
    words.output.as_slice()
}

/// Checks that standard output goes to no file that is read, and that OUT is none of these and not
/// the file of a standard stream.
#[inline(never)]
fn check_paths<'p, F: FileStore<'p>>(
    alloc: Global,
    files: &mut F,
    words: &CompareWords<'p>,
) -> Result<(), Unasked<'p>>
    ensures kept { Keeps (F.place files.old) (F.place files.new) (F.text files.old) (F.text files.new) (F.pending files.old) (F.pending files.new) }
    ensures printed { F.printed files.new ≡ F.printed files.old }
    ensures opened { F.opened files.new ≡ F.opened files.old }
    ensures apart { F.known ≡ true → OnOk result (AreApart (F.place files.old) (F.printed files.old) words.now) }
    ensures refused { F.known ≡ true → IfErr result (IsShared (F.place files.old) (F.printed files.old) (F.failed files.new) words.now) }
{
    let Ok(read) = read_paths(alloc, words) else {
        return Err(Unasked::Paths(PathFault::NoMemory));
    };
    let written = written_paths(words);
    match files.check_apart(Opening::Late, true, read.as_slice(), written) {
        Ok(()) => Ok(()),
        Err(fault) => Err(Unasked::Paths(fault)),
    }
}

/// Accepts both filters, and then compares the paths. No file is opened.
pub(crate) fn accept_pair<'p, F: FileStore<'p>>(
    alloc: Global,
    files: &mut F,
    words: &CompareWords<'p>,
) -> Result<FilterPair, Uncompared<'p>>
    ensures kept { Keeps (F.place files.old) (F.place files.new) (F.text files.old) (F.text files.new) (F.pending files.old) (F.pending files.new) }
    ensures printed { F.printed files.new ≡ F.printed files.old }
    ensures opened { F.opened files.new ≡ F.opened files.old }
    ensures pair { F.known ≡ true → IfOk result (ArePair (F.place files.old) (F.text files.old) words.now) }
    ensures apart { F.known ≡ true → OnOk result (AreApart (F.place files.old) (F.printed files.old) words.now) }
    ensures refused { F.known ≡ true → IfErr result (IsRefused (F.place files.old) (F.text files.old) (F.printed files.old) (F.failed files.new) words.now) }
{
    let pair = read_pair(alloc, files, words)?;
    match check_paths(alloc, files, words) {
        Ok(()) => Ok(pair),
        Err(reason) => Err(Uncompared::Files(reason)),
    }
}

/// Accepts both filters, compares the paths, and opens the captures late, in this order. Nothing is
/// printed.
pub fn ask_pair<'p, F: FileStore<'p>>(
    alloc: Global,
    files: &mut F,
    words: &CompareWords<'p>,
) -> Result<PairAsked<F::Input>, Uncompared<'p>>
    ensures kept { Keeps (F.place files.old) (F.place files.new) (F.text files.old) (F.text files.new) (F.pending files.old) (F.pending files.new) }
    ensures asks { F.known ≡ true → IfOk result (Asks F.Input.left F.Input.failures (F.place files.old) (F.text files.old) (F.printed files.old) words.now) }
    ensures refused { F.known ≡ true → IfErr result (IsRefused (F.place files.old) (F.text files.old) (F.printed files.old) (F.failed files.new) words.now) }
{
    let pair = accept_pair(alloc, files, words)?;
    match open_captures(alloc, files, words.inputs.as_slice()) {
        Ok(captures) => Ok(PairAsked { pair, captures }),
        Err(reason) => Err(Uncompared::Files(reason)),
    }
}
