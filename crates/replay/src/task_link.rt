//! What the threads of a task share.

ghost use Rattle.std.specs.Prelude.{◌≡◌};

use handover::Link;
use std::marker::Model;
use std::thread::Parker;

/// What the threads of a task share, by a `&`: the link of its pair, and where its reading thread
/// and its writer park. Contracts see which pair it is.
#[derive(Drop)]
pub(crate) struct TaskLink {
    pair: Link,
    pub(crate) reader: Parker,
    pub(crate) writer: Parker,
}

impl Model for TaskLink {
    ghost use Rattle.std.specs.Prelude.{◌≡◌};
    ghost use Rattle.atomic_table.specs.Seated.{TableId, table_id_coded};

    ghost Value = { TableId };

    ghost coded = { table_id_coded };

    ghost view = { λ l. l.pair };
}

impl TaskLink {
    pub(crate) fn new(pair: Link) -> TaskLink
        ensures { result ≡ pair }
    {
        TaskLink {
            pair,
            reader: Parker::new(),
            writer: Parker::new(),
        }
    }

    pub(crate) fn pair(&self) -> &Link
        ensures { result.now ≡ self.now }
    {
        &self.pair
    }

    pub(crate) fn into_pair(self) -> Link
        ensures { result ≡ self }
    {
        let TaskLink {
            pair,
            reader: _,
            writer: _,
        } = self;
        pair
    }

    /// There may be a hold to read, or an empty buffer to read it with.
    pub(crate) fn wake_reader(&self) {
        self.reader.unpark();
    }

    /// There may be a buffer to write.
    pub(crate) fn wake_writer(&self) {
        self.writer.unpark();
    }
}
