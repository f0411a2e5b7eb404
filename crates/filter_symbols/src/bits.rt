//! The bits of a packet as nodes, and the words of its fields.

ghost use Rattle.std.specs.Prelude.{◌≡◌, ℕ, ◌+◌, ◌-◌, ◌*◌, ◌<◌, ◌≤◌, false, IfOk};
ghost use Rattle.filter_bdd.specs.Fields.{is_set};
ghost use Rattle.filter_meaning.specs.Meaning.{Packet};
ghost use Rattle.filter_words.specs.Steps.{padded};
ghost use Rattle.filter_symbols.specs.Packets.{bit_of};
ghost use Rattle.filter_symbols.specs.Symbols.{Extends};
ghost use Rattle.filter_symbols.specs.Steps.{IsBitOf, IsField};

use crate::symbol::Symbols;
use filter_bdd::Stop;
use filter_tree::headers::ETHER_HDR_LEN;
use filter_words::Word;

/// The names of the low four bits of the first byte of the IPv4 header.
const HEADER_FIRST: u32 = 32 + 8 * ETHER_HDR_LEN as u32 + 4;

const HEADER_LAST: u32 = HEADER_FIRST + 3;

/// A bit of a number, the lowest being bit 0.
fn is_set(number: u32, bit: u32) -> bool
    requires { bit < 32 }
    ensures { result ≡ is_set number bit }
{
    (number >> bit) % 2 == 1
}

impl Symbols {
    /// A node that says whether a bit of a packet is 1, by its name. Those of the header length are
    /// what it is, if it is given.
    fn bit_named(&mut self, name: u32) -> Result<u32, Stop>
        ensures bit { IfOk result (IsBitOf self.new name (λ p. bit_of p name)) }
        ensures extends { Extends self.old self.new }
    {
        match self.header {
            Some(words) if name >= HEADER_FIRST && name <= HEADER_LAST => {
                self.words.fixed(is_set(words, HEADER_LAST - name))
            }
            _ => self.words.variable(name),
        }
    }

    /// A bit of a field, or 0 above its highest one.
    fn field_bit(&mut self, last: u32, width: u32, place: u32) -> Result<u32, Stop>
        requires { width ≤ last + 1 }
        ensures bit { IfOk result (IsBitOf self.new last (λ p. padded (λ k. bit_of p (last - k)) false width place)) }
        ensures extends { Extends self.old self.new }
    {
        if place < width {
            self.bit_named(last - place)
        } else {
            self.words.fixed(false)
        }
    }

    /// The number that `width` bits of a packet are, of which `last` is the lowest, and the one
    /// named before it the next.
    pub(crate) fn field(&mut self, last: u32, width: u32) -> Result<Word, Stop>
        requires last { width ≤ last + 1 }
        requires width { width ≤ 32 }
        ensures field { IfOk result (IsField self.new last width) }
        ensures extends { Extends self.old self.new }
    {
        let mut bits = [0; 32];
        for i in 0..32 {
            let node = self.field_bit(last, width, i as u32)?;
            bits[i] = node;
        }
        Ok(Word { bits })
    }
}
