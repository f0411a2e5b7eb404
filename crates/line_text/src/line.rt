//! A line that is put together before it is sent.

ghost use Rattle.std.specs.Prelude.{◌≡◌, [], OnOk};
ghost use Rattle.std.specs.Fmt.{AppendsText};

use arrayvec::ArrayString;
use std::fmt::{Display, Write};
use std::io;
use std::io::ErrorKind;
use std::marker::Model;

/// A line that is put together before it is sent, by `write!` and `writeln!`: at most 512 bytes. It
/// takes no memory, since it may have to report that memory ran out.
#[derive(Drop)]
pub struct Line {
    text: ArrayString<512>,
}

impl Model for Line {
    ghost use Rattle.std.specs.Prelude.{ℕ, List};

    ghost Value = { List ℕ };

    ghost view = { λ line. line.text.bytes };
}

impl Line {
    /// A line of no bytes.
    pub fn new() -> Line
        ensures { result ≡ [] }
    {
        Line {
            text: ArrayString::new(),
        }
    }

    pub fn clear(&mut self)
        ensures { self.new ≡ [] }
    {
        self.text.clear();
    }

    pub fn as_bytes(&self) -> &[u8]
        ensures { result.now ≡ self.now }
    {
        self.text.as_str().as_bytes()
    }

    /// Adds a value, as `write!` and `writeln!` do. If there is no room for it, the error is
    /// `WriteZero`.
    pub fn write_fmt<D: Display + Drop>(&mut self, value: D) -> io::Result<()>
        ensures { OnOk result (AppendsText self.old self.new (D.output value)) }
    {
        match self.text.write(value) {
            Ok(()) => Ok(()),
            Err(_) => Err(io::Error::from(ErrorKind::WriteZero)),
        }
    }
}
