//! Texts that are sent to a writer.

ghost use Rattle.line_text.specs.Sending.{Takes};

use std::io;
use std::io::{ErrorKind, Write};

/// How many interrupted writes a call tries again.
const RETRIES: u32 = 64;

/// Sends a text. If that fails, the writer took a prefix of the text and no more.
///
/// Up to 64 writes that are interrupted are tried again. A write of no bytes is the error
/// `WriteZero`.
pub fn send<W: Write>(text: &[u8], out: &mut W) -> io::Result<()>
    ensures { Takes (W.contents out.old) (W.contents out.new) result text.now }
{
    let mut rest = text;
    let mut retries = RETRIES;
    while !rest.is_empty() {
        match out.write(rest) {
            Ok(0) => return Err(io::Error::from(ErrorKind::WriteZero)),
            Ok(taken) => rest = &rest[taken..],
            Err(error) => {
                if retries == 0 || error.kind() != ErrorKind::Interrupted {
                    return Err(error);
                }
                retries -= 1;
            }
        }
    }
    Ok(())
}
