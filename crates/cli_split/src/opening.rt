//! The files of a split: LINES, which is read, the captures, which are opened, and each OUT, which is made.

ghost use Rattle.std.specs.Prelude.{◌≡◌, ◌≢◌, ◌≤◌, ◌+◌, ◌++◌, ◌∷◌, [], All, IfErr, IfOk, OnOk, Some, length, map, true, vec_capacity};
ghost use Rattle.std.specs.List.{AllZip};
ghost use Rattle.cli_store.specs.Files.{Keeps};
ghost use Rattle.cli_split.specs.Lines.{IsCompiled};
ghost use Rattle.cli_split.specs.Opened.{IsInput, IsLate, IsMadeOf, IsOutput, IsUnmade, IsUnread};
ghost use Rattle.cli_split.specs.SplitFiles.{IsTextOf};

use crate::outcome::Refusal;
use crate::part::Part;
use crate::plan::SplitLine;
use bpfvm::Program;
use cli_files::reading::MAX_TEXT;
use cli_store::FileStore;
use std::alloc::Global;

/// The text of LINES, which is kept in `text`.
pub(crate) fn read_lines_text<'p, F: FileStore<'p>>(
    files: &mut F,
    path: &'p str,
    text: &'p mut Vec<u8>,
) -> Result<&'p [u8], Refusal<'p>>
    ensures kept { Keeps (F.place files.old) (F.place files.new) (F.text files.old) (F.text files.new) (F.pending files.old) (F.pending files.new) }
    ensures opened { F.opened files.new ≡ F.opened files.old }
    ensures printed { F.printed files.new ≡ F.printed files.old }
    ensures text { F.known ≡ true → IfOk result (λ text. IsTextOf (F.place files.old) (F.text files.old) path.entry.now text.now) }
    ensures refused { F.known ≡ true → IfErr result (IsUnread (F.place files.old) (F.text files.old) (F.denied files.new) path.entry.now) }
{
    let bytes = match files.read(path, MAX_TEXT + 1) {
        Ok(bytes) => bytes,
        Err(error) => return Err(Refusal::File(path, error)),
    };
    if bytes.as_slice().len() > MAX_TEXT {
        return Err(Refusal::TextTooLong(path));
    }
    *text = bytes;
    Ok(text.as_slice())
}

/// The captures, each of which is opened when it is read first.
pub fn late_captures<'p, F: FileStore<'p>>(
    alloc: Global,
    files: &mut F,
    paths: &[&'p str],
) -> Result<Vec<F::Input>, Refusal<'p>>
    ensures kept { Keeps (F.place files.old) (F.place files.new) (F.text files.old) (F.text files.new) (F.pending files.old) (F.pending files.new) }
    ensures opened { F.known ≡ true → OnOk result (F.opened files.new ≡ F.opened files.old ++ map (λ path. F.place files.old path.now) paths.now) }
    ensures late { F.known ≡ true → IfOk result (λ captures. AllZip (IsLate F.Input.left F.Input.failures (F.place files.old) (F.text files.old)) paths.now captures.items) }
    ensures refused { F.known ≡ true → IfErr result (IsUnmade (IsInput paths.now) (F.place files.old) (F.denied files.new)) }
{
    let mut captures = Vec::new(alloc);
    for path in paths {
        match files.late(*path) {
            Ok(capture) => captures.push(capture)?,
            Err(error) => return Err(Refusal::File(*path, error)),
        }
    }
    Ok(captures)
}

/// Makes the OUT of each line, beside the program and the snapshot length of that line. After an `Err` the parts are those that were made.
pub(crate) fn make_parts<'p, F: FileStore<'p>>(
    files: &mut F,
    lines: &[SplitLine<'p>],
    programs: Vec<Program>,
    parts: &mut Vec<Part<F::Output>>,
) -> Result<(), Refusal<'p>>
    requires room { (parts.old.items ≡ []) × (length programs.items ≤ vec_capacity parts.old) }
    requires all { length programs.items ≡ length lines.now }
    requires apart { F.known ≡ true → All (λ line. All (λ read. read ≢ F.place files.old line.output.now) (F.opened files.old)) lines.now }
    ensures places { F.place files.new ≡ F.place files.old }
    ensures texts { F.text files.new ≡ F.text files.old }
    ensures pending { F.known ≡ true → F.pending files.new ≡ F.pending files.old + length parts.new.items }
    ensures count { OnOk result (length parts.new.items ≡ length lines.now) }
    ensures empty { F.known ≡ true → All (λ part. F.Output.taken part.sink ≡ Some []) parts.new.items }
    ensures made { F.known ≡ true → AllZip IsCompiled lines.now programs.items →
        OnOk result (AllZip (IsMadeOf F.Output.taken F.Output.name F.Output.failures (F.place files.old) IsCompiled) lines.now parts.new.items) }
    ensures refused { F.known ≡ true → IfErr result (IsUnmade (IsOutput lines.now) (F.place files.old) (F.denied files.new)) }
{
    for program in programs {
        let line = lines[parts.len()];
        match files.create(line.output) {
            Ok(sink) => parts.push_reserved(Part {
                program,
                snap: line.snap,
                sink,
            }),
            Err(error) => return Err(Refusal::File(line.output, error)),
        }
    }
    Ok(())
}
