//! Bytes of a packet as symbols, at an index that is known or calculated.

ghost use Rattle.std.specs.Prelude.{◌≡◌, ℕ, ◌+◌, ◌^◌, ◌<◌, ◌≤◌, Bool, true, false, Option, option_and_then, IfOk};
ghost use Rattle.bpfvm.specs.Machine.{number_at};
ghost use Rattle.filter_meaning.specs.Meaning.{Packet, bytes_of};
ghost use Rattle.filter_words.specs.Words.{number, bit, word_bit, value, IsBit, IsWord};
ghost use Rattle.filter_symbols.specs.Packets.{bit_of};
ghost use Rattle.filter_symbols.specs.Symbols.{IsSymbol, Is, StandsFor, Extends};
ghost use Rattle.filter_symbols.specs.Steps.{IsNarrowed, ReadsWhere};

use crate::symbol::{Symbol, Symbols};
use filter_bdd::{Answer, Operation, Stop};
use filter_tree::Size;
use filter_words::Word;

/// The most bytes of a packet that are looked at.
const MOST_BYTES: u32 = 1 << 17;

/// What is read of a packet: bytes at `base` and an index.
#[derive(Clone, Copy)]
pub(crate) struct Access {
    pub index: Word,
    pub base: u32,
    pub size: Size,
}

/// How many bytes an access reads.
fn bytes_of(size: Size) -> u32
    ensures size { result ≡ bytes_of size }
    ensures few { result ≤ 4 }
    ensures some { 1 ≤ result }
{
    match size {
        Size::One => 1,
        Size::Two => 2,
        Size::Four => 4,
    }
}

/// The sum of two numbers, if it is below 2^32.
fn sum_of(first: u32, second: u32) -> Result<u32, Stop>
    ensures { IfOk result (λ n. n ≡ first + second) }
{
    match first.checked_add(second) {
        Some(sum) => Ok(sum),
        None => Err(Stop::Budget),
    }
}

/// A number with one more bit, if it is below 2^32.
fn with_bit(number: u32, bit: u32) -> Result<u32, Stop>
    requires { bit < 32 }
    ensures { IfOk result (λ n. n ≡ number + 2 ^ bit) }
{
    sum_of(number, 1 << bit)
}

impl Symbols {
    /// Bytes of a packet at an offset of the frame.
    #[inline(never)]
    pub fn load_at(&mut self, offset: u32, size: Size) -> Result<Symbol, Stop>
        ensures stands { IfOk result (StandsFor self.new (λ p. number_at p.captured offset (bytes_of size))) }
        ensures extends { Extends self.old self.new }
    {
        let bytes = bytes_of(size);
        if offset >= MOST_BYTES {
            return Err(Stop::Budget);
        }
        let need = offset + bytes;
        let word = self.field(31 + 8 * need, 8 * bytes)?;
        let guard = self.words.diagrams.leaf(Answer::Final(need, true))?;
        Ok(Symbol { guard, word })
    }

    /// A node that says Yes if a condition does and another node is this bit.
    #[inline(never)]
    fn narrow(&mut self, condition: u32, node: u32, one: bool) -> Result<u32, Stop>
        requires condition { IsBit self.old.words.diagrams condition }
        requires node { IsBit self.old.words.diagrams node }
        ensures narrowed { IfOk result (IsNarrowed self.old.words.diagrams self.new.words.diagrams condition node one) }
        ensures extends { Extends self.old self.new }
    {
        let no = self.words.fixed(false)?;
        if one {
            self.words.choice(node, condition, no)
        } else {
            self.words.choice(node, no, condition)
        }
    }

    /// One of two symbols, by a bit.
    #[inline(never)]
    fn choose(&mut self, test: u32, one: Symbol, zero: Symbol) -> Result<Symbol, Stop>
        requires test { IsBit self.old.words.diagrams test }
        requires one { IsSymbol self.old.words.diagrams one }
        requires zero { IsSymbol self.old.words.diagrams zero }
        ensures inside { IfOk result (IsSymbol self.new.words.diagrams) }
        ensures one { IfOk result (λ s. (p : Packet) (n : Option ℕ) → bit self.old.words.diagrams (bit_of p) test ≡ true → Is self.old.words.diagrams p one n → Is self.new.words.diagrams p s n) }
        ensures zero { IfOk result (λ s. (p : Packet) (n : Option ℕ) → bit self.old.words.diagrams (bit_of p) test ≡ false → Is self.old.words.diagrams p zero n → Is self.new.words.diagrams p s n) }
        ensures extends { Extends self.old self.new }
    {
        let word = self.words.select(test, one.word, zero.word)?;
        let guard = self.words.diagrams.ite(test, one.guard, zero.guard)?;
        Ok(Symbol { guard, word })
    }

    /// Some symbol, for where nothing is asked.
    #[inline(never)]
    fn any_symbol(&mut self) -> Result<Symbol, Stop>
        ensures inside { IfOk result (IsSymbol self.new.words.diagrams) }
        ensures extends { Extends self.old self.new }
    {
        let word = self.words.constant(0)?;
        let guard = self.words.diagrams.leaf(Answer::Never)?;
        Ok(Symbol { guard, word })
    }

    /// What an access reads if a condition holds. Of the index the bits from `place` on are
    /// known there: they are the number `known`.
    fn load_each(
        &mut self,
        access: Access,
        condition: u32,
        place: u32,
        known: u32,
    ) -> Result<Symbol, Stop>
        requires index { IsWord self.old.words.diagrams access.index }
        requires condition { IsBit self.old.words.diagrams condition }
        requires place { place ≤ 32 }
        requires known { (v : ℕ → Bool) → bit self.old.words.diagrams v condition ≡ true → value self.old.words.diagrams v access.index ≡ known + number (word_bit self.old.words.diagrams v access.index) place }
        ensures reads { IfOk result (ReadsWhere self.old self.new access condition) }
        ensures extends { Extends self.old self.new }
    {
        if self.words.diagrams.is(condition, Answer::Final(0, false)) {
            return self.any_symbol();
        }
        let Some(below) = place.checked_sub(1) else {
            let offset = sum_of(access.base, known)?;
            return self.load_at(offset, access.size);
        };
        let bit = access.index.bits[below as usize];
        let low = self.narrow(condition, bit, false)?;
        let high = self.narrow(condition, bit, true)?;
        let more = with_bit(known, below)?;
        let zero = self.load_each(access, low, below, known)?;
        let one = self.load_each(access, high, below, more)?;
        self.choose(bit, one, zero)
    }

    /// Bytes of a packet at `base` and an index. There are none if the index has no number.
    pub fn load(&mut self, index: Symbol, base: u32, size: Size) -> Result<Symbol, Stop>
        requires { IsSymbol self.old.words.diagrams index }
        ensures inside { IfOk result (IsSymbol self.new.words.diagrams) }
        ensures stands { IfOk result (λ s. (f : Packet → Option ℕ) → StandsFor self.old f index
            → StandsFor self.new (λ p. option_and_then (λ i. number_at p.captured (base + i) (bytes_of size)) (f p)) s) }
        ensures extends { Extends self.old self.new }
    {
        let always = self.words.fixed(true)?;
        let access = Access {
            index: index.word,
            base,
            size,
        };
        let read = self.load_each(access, always, 32, 0)?;
        let guard = self
            .words
            .diagrams
            .apply(Operation::And, index.guard, read.guard)?;
        Ok(Symbol {
            guard,
            word: read.word,
        })
    }
}
