//! The savefile that what was read is written to.

ghost use Rattle.std.specs.Prelude.{◌≡◌, List, [], ◌∷◌, ◌++◌};
ghost use Rattle.listener.specs.Buffers.{message_in, FitsSavefileRecord};
ghost use Rattle.listener.specs.declared.message.Message.{Message};
ghost use Rattle.replay.specs.declared.capture_output.OutputFile.{OutputFile};
ghost use Rattle.replay.specs.Writing.{Writes};

use listener::{Buffer, Record};
use savefile::laws::{growing_text, packets_take_room};
use savefile::{Order, Sink, Unit, Writer};

/// The most nanoseconds of a time. Packets of a capture have no more.
const MAX_NANOS: u32 = 999_999_999;

/// The savefile that a task's packets are written to.
#[derive(Drop)]
pub(crate) struct OutputFile<W> {
    pub(crate) sink: W,
    pub(crate) order: Order,
    pub(crate) unit: Unit,
    pub(crate) snap: u32,
}

/// A savefile that is written. After a fault nothing more is written.
#[derive(Drop)]
pub(crate) struct Written<W> {
    pub(crate) writer: Writer<W>,
    /// How many packets were written whole.
    pub(crate) count: u64,
    /// No fault came so far.
    pub(crate) works: bool,
}

impl<W: Sink> Written<W> {
    /// Writes the header.
    pub(crate) fn open(output: OutputFile<W>) -> Written<W>
        ensures { Writes W.taken W.failures output [] result }
    {
        let OutputFile {
            sink,
            order,
            unit,
            snap,
        } = output;
        let (writer, opened) = Writer::open(sink, order, unit, snap);
        let works = match opened {
            Ok(()) => true,
            Err(_) => false,
        };
        Written {
            writer,
            count: 0,
            works,
        }
    }

    /// Writes one packet.
    fn put(&mut self, message: &Record<'_>)
        requires { FitsSavefileRecord (message_in message.now) }
        ensures { (output : OutputFile W) (messages : List Message) → Writes W.taken W.failures output messages self.old →
            Writes W.taken W.failures output (messages ++ message_in message.now ∷ []) self.new }
    {
        growing_text();
        packets_take_room();
        if !self.works {
            return;
        }
        let nanos = message.nanos.min(MAX_NANOS);
        match self
            .writer
            .put(message.sec, nanos, message.len, message.bytes)
        {
            Ok(()) => {
                // Each packet takes 16 bytes at least, so that this is below the number of bytes.
                let _sent = self.writer.sent();
                self.count = self.count.saturating_add(1);
            }
            Err(_) => self.works = false,
        }
    }

    /// Asks the sink to hand on what it has gathered.
    pub(crate) fn flush(&mut self)
        ensures { (output : OutputFile W) (messages : List Message) → Writes W.taken W.failures output messages self.old →
            Writes W.taken W.failures output messages self.new }
    {
        if !self.works {
            return;
        }
        self.writer.flush();
    }

    /// Writes the messages of a buffer.
    pub(crate) fn put_all(&mut self, buffer: &Buffer)
        ensures { (output : OutputFile W) (messages : List Message) → Writes W.taken W.failures output messages self.old →
            Writes W.taken W.failures output (messages ++ buffer.now.messages) self.new }
    {
        for record in buffer.records() {
            self.put(&record);
        }
    }
}
