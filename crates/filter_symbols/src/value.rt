//! The values of filter expressions as symbols.

ghost use Rattle.std.specs.Prelude.{◌≡◌, ℕ, ◌<◌, Option, Some, option_and_then, IfOk, IfSome};
ghost use Rattle.filter_tree.specs.Trees.{amount_of};
ghost use Rattle.filter_meaning.specs.Meaning.{Packet, accessed, bytes_of, value, compared, check_both};
ghost use Rattle.filter_symbols.specs.Symbols.{IsSymbol, StandsFor, SaysOf, Extends};
ghost use Rattle.filter_symbols.specs.Steps.{index_behind};

use crate::symbol::{Refusal, Symbol, Symbols};
use filter_bdd::{Answer, Operation, Stop};
use filter_tree::headers::ETHER_HDR_LEN;
use filter_tree::{Comparison, Layer, Operator, Size, Value};

/// Where what comes after the Ethernet header begins.
const NETWORK: u32 = ETHER_HDR_LEN as u32;

impl Symbols {
    /// A number.
    #[inline(never)]
    pub fn number(&mut self, number: u32) -> Result<Symbol, Stop>
        ensures stands { IfOk result (StandsFor self.new (λ p. Some number)) }
        ensures extends { Extends self.old self.new }
    {
        let word = self.words.constant(number)?;
        let guard = self.words.fixed(true)?;
        Ok(Symbol { guard, word })
    }

    /// The length on the wire.
    #[inline(never)]
    pub fn wire_length(&mut self) -> Result<Symbol, Stop>
        ensures stands { IfOk result (StandsFor self.new (λ p. Some p.wire)) }
        ensures extends { Extends self.old self.new }
    {
        let word = self.field(31, 32)?;
        let guard = self.words.fixed(true)?;
        Ok(Symbol { guard, word })
    }

    /// Where an index after an IPv4 header of `header` words lies after the Ethernet header.
    fn index_after_header(&mut self, index: Symbol, header: u32) -> Result<Symbol, Stop>
        requires index { IsSymbol self.old.words.diagrams index }
        requires header { header < 16 }
        requires is { self.old.header ≡ Some header }
        ensures inside { IfOk result (IsSymbol self.new.words.diagrams) }
        ensures stands { IfOk result (λ s. (f : Packet → Option ℕ) → StandsFor self.old f index → StandsFor self.new (λ p. option_and_then (index_behind p) (f p)) s) }
        ensures extends { Extends self.old self.new }
    {
        let length = self.words.constant(4 * header)?;
        let word = self.words.add(index.word, length)?;
        let first = self.words.diagrams.leaf(Answer::Final(15, true))?;
        let guard = self
            .words
            .diagrams
            .apply(Operation::And, index.guard, first)?;
        Ok(Symbol { guard, word })
    }

    /// Bytes of a layer at an index.
    #[inline(never)]
    fn access(&mut self, layer: Layer, index: Symbol, size: Size) -> Result<Symbol, Refusal>
        requires index { IsSymbol self.old.words.diagrams index }
        requires header { IfSome self.old.header (λ n. n < 16) }
        ensures inside { IfOk result (IsSymbol self.new.words.diagrams) }
        ensures stands { IfOk result (λ s. (f : Packet → Option ℕ) → StandsFor self.old f index → StandsFor self.new (λ p. option_and_then (accessed layer (bytes_of size) p) (f p)) s) }
        ensures extends { Extends self.old self.new }
    {
        match layer {
            Layer::Ether => Ok(self.load(index, 0, size)?),
            Layer::Ip | Layer::Arp | Layer::Rarp => Ok(self.load(index, NETWORK, size)?),
            Layer::Tcp | Layer::Udp | Layer::Icmp => {
                let Some(header) = self.header else {
                    return Err(Refusal::Header);
                };
                let place = self.index_after_header(index, header)?;
                Ok(self.load(place, NETWORK, size)?)
            }
        }
    }

    /// The symbol of a value: what it is of each packet.
    ///
    /// `Header` if it has bytes after the IPv4 header, and the header's length is not given.
    /// `Budget` if the budget is spent, or a byte is wanted that is 2^17 bytes or more from the
    /// first one. `Memory` if memory is refused.
    #[tactic(auto, using(crate::proofs::Stands::extends_more, crate::proofs::Guards::symbol_extended))]
    pub fn symbol_of(&mut self, amount: &Value) -> Result<Symbol, Refusal>
        requires { IfSome self.old.header (λ n. n < 16) }
        ensures stands { IfOk result (StandsFor self.new (value (amount_of amount.now))) }
        ensures extends { Extends self.old self.new }
    {
        match amount {
            Value::Number(number) => Ok(self.number(*number)?),
            Value::Length => Ok(self.wire_length()?),
            Value::Negation(operand) => {
                let negated = self.symbol_of(operand)?;
                let zero = self.number(0)?;
                let whole = self.calculate(Operator::Minus, zero, negated)?;
                Ok(whole)
            }
            Value::Binary(operator, left, right) => {
                let first = self.symbol_of(left)?;
                let second = self.symbol_of(right)?;
                let made = self.calculate(*operator, first, second)?;
                Ok(made)
            }
            Value::Accessor(layer, index, size) => {
                let place = self.symbol_of(index)?;
                let bytes = self.access(*layer, place, *size)?;
                Ok(bytes)
            }
        }
    }

    /// A node that says whether two values compare in this way. It aborts if a packet lacks one
    /// of them.
    ///
    /// Errors are those of [`symbol_of`](Symbols::symbol_of).
    #[tactic(auto, using(crate::proofs::Stands::extends_more, crate::proofs::Guards::symbol_extended))]
    pub fn compare_values(
        &mut self,
        comparison: Comparison,
        left: &Value,
        right: &Value,
    ) -> Result<u32, Refusal>
        requires { IfSome self.old.header (λ n. n < 16) }
        ensures says { IfOk result (SaysOf self.new (λ p. check_both (compared comparison) (value (amount_of left.now) p) (value (amount_of right.now) p))) }
        ensures extends { Extends self.old self.new }
    {
        let first = self.symbol_of(left)?;
        let second = self.symbol_of(right)?;
        let holds = self.compare(comparison, first, second)?;
        Ok(holds)
    }
}
