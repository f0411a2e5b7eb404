//! The numbers of the standard streams.

use crate::paths::{PathFault, STANDARD_ERROR, STANDARD_INPUT, STANDARD_OUTPUT};
use std::fs;
use std::fs::Files;

/// A folder that each system has, and the program may open: nothing can be read from it as from a
/// file, and nothing can be written to it, by its number or by a path such as `/dev/stdout`.
const ROOT: &str = "/";

/// Opens a folder, which gets the least number that is free: that of a standard stream, if one is
/// closed. The fault names this stream.
fn reserve_stream<'a, R: Files>(rt: &R, name: &'a str) -> Result<R::File, PathFault<'a>> {
    match fs::open(rt, ROOT) {
        Ok(folder) => Ok(folder),
        Err(error) => Err(PathFault::Unknown(name, error)),
    }
}

/// Takes the numbers of the standard streams that are closed, so that no file that is opened gets
/// one: while these three are held, nothing that is printed or reported goes into a file. If no
/// stream is closed they get other numbers, which does no harm.
pub fn reserve_streams<R: Files>(rt: &R) -> Result<[R::File; 3], PathFault<'static>> {
    Ok([
        reserve_stream(rt, STANDARD_INPUT)?,
        reserve_stream(rt, STANDARD_OUTPUT)?,
        reserve_stream(rt, STANDARD_ERROR)?,
    ])
}
