//! Relations as nodes of decision diagrams.

ghost use Rattle.std.specs.Prelude.{◌≡◌, ◌<◌, IfOk, IfSome};
ghost use Rattle.filter_tree.specs.Trees.{amount_of};
ghost use Rattle.filter_meaning.specs.Meaning.{in_layer, in_layers, relation_test};
ghost use Rattle.filter_symbols.specs.Symbols.{SaysOf, Extends};

use crate::builder::Builder;
use crate::refusal::Refusal;
use filter_bdd::{Answer, Stop};
use filter_tree::headers::{
    ETHERTYPE_ARP, ETHERTYPE_IP, ETHERTYPE_REVARP, IPPROTO_ICMP, IPPROTO_TCP, IPPROTO_UDP,
};
use filter_tree::{Comparison, Layer, Value};

impl Builder {
    /// The packet has a layer.
    fn in_layer(&mut self, layer: Layer) -> Result<u32, Stop>
        ensures means { IfOk result (SaysOf self.new.symbols (in_layer layer)) }
        ensures extends { Extends self.old.symbols self.new.symbols }
    {
        match layer {
            Layer::Ether => self.leaf(Answer::Final(0, true)),
            Layer::Ip => self.is_type(ETHERTYPE_IP),
            Layer::Arp => self.is_type(ETHERTYPE_ARP),
            Layer::Rarp => self.is_type(ETHERTYPE_REVARP),
            Layer::Tcp => self.is_first_fragment_of(IPPROTO_TCP),
            Layer::Udp => self.is_first_fragment_of(IPPROTO_UDP),
            Layer::Icmp => self.is_first_fragment_of(IPPROTO_ICMP),
        }
    }

    /// The packet has the layers of all accessors of a value.
    #[tactic(auto, using(crate::proofs::Builders::extends_more, crate::proofs::Builders::extends_same, crate::proofs::Builders::inside_extended))]
    fn in_layers(&mut self, value: &Value) -> Result<u32, Stop>
        ensures means { IfOk result (SaysOf self.new.symbols (in_layers (amount_of value.now))) }
        ensures extends { Extends self.old.symbols self.new.symbols }
    {
        match value {
            Value::Number(_) | Value::Length => self.leaf(Answer::Final(0, true)),
            Value::Negation(operand) => self.in_layers(operand),
            Value::Binary(_, left, right) => {
                let first = self.in_layers(left)?;
                let second = self.in_layers(right)?;
                self.both(first, second)
            }
            Value::Accessor(layer, index, _) => {
                let outer = self.in_layer(*layer)?;
                let inner = self.in_layers(index)?;
                self.both(outer, inner)
            }
        }
    }

    /// A relation of two values.
    #[tactic(auto, using(crate::proofs::Builders::extends_more, crate::proofs::Builders::extends_same, crate::proofs::Builders::inside_extended))]
    #[inline(never)]
    pub(crate) fn relation(
        &mut self,
        comparison: Comparison,
        left: &Value,
        right: &Value,
    ) -> Result<u32, Refusal>
        requires { IfSome self.old.symbols.header (λ n. n < 16) }
        ensures means { IfOk result (SaysOf self.new.symbols (relation_test comparison (amount_of left.now) (amount_of right.now))) }
        ensures extends { Extends self.old.symbols self.new.symbols }
    {
        let first = self.in_layers(left)?;
        let second = self.in_layers(right)?;
        let layers = self.both(first, second)?;
        let test = self.symbols.compare_values(comparison, left, right)?;
        let whole = self.both(layers, test)?;
        Ok(whole)
    }
}
