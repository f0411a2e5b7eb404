//! The program `bpftap`: the BSD packet tap, replayed from capture files.
#![tactic(auto)]

mod program;

use cli_args::hints::{CalledWords, called_words};
use cli_files::paths::report_path;
use cli_files::streams::reserve_streams;
use cli_report::ErrorStream;
use cli_text::report::report_words;
use std::io::IsTerminal;
use std::process::ExitCode;
use std::{env, io};

/// The words that the program was called with.
fn words(rt: &HostRuntime) -> io::Result<CalledWords> {
    Ok(called_words(rt.alloc(), env::args(rt)?.collect(rt.alloc())?)?)
}

fn main(rt: HostRuntime) -> ExitCode {
    let (mut out, mut err) = (rt.stdout(), rt.stderr());
    // Held to the end: no file that a command opens gets the number of a closed stream.
    let streams = reserve_streams(&rt);
    let status = match words(&rt) {
        Ok(called) => {
            let takes_hints = err.is_terminal() || called.asks_hints;
            let mut err = ErrorStream::new(err, takes_hints);
            match &streams {
                Ok(_) => program::run(&rt, called.words.as_slice(), &mut out, &mut err),
                Err(fault) => report_path(fault, &mut err),
            }
        }
        Err(error) => report_words(error, &mut err),
    };
    ExitCode::from(status.code())
}
