//! Relations. Code is written from its end, so what a run does last is emitted first. `next` is
//! where a run goes on after a test.

ghost use Rattle.std.specs.Prelude.{◌≡◌, ◌+◌, ◌≤◌, max, bit_and, option_map, Some, IfSome};
ghost use Rattle.filter_tree.specs.Trees.{amount_of};
ghost use Rattle.filter_tree.specs.declared.tree.Comparison.TheVariants.{NotEqual};
ghost use Rattle.filter_meaning.specs.Meaning.{Packet, value, compared, check, check_both};
ghost use Rattle.filtergen_facts.specs.Weights.{value_need};
ghost use Rattle.filtergen_code.specs.Remaining.{rest_of_type, rest_of_protocol, rest_of_first_fragment, rest_of, rest_of_layers, rest_of_relation};
ghost use Rattle.filtergen_code.specs.Parts.{value_cost, layers_cost, compare_cost, relation_cost};
ghost use Rattle.filtergen_code.specs.Emission.{AreExits, field_of, value_of, Chooses, Decides, Emits, CanEmit};

use crate::code::{Code, Exits, Full};
use crate::constants::constant;
use crate::insns::{Field, Jump, Operand, load_insn};
use crate::values::field_of;
use filter_tree::headers::ETHERTYPE_IP;
use filter_tree::{Comparison, Operator, Value};
use filtergen_facts::PacketFacts;

/// The two operands of a value that masks bits with a constant.
fn split_mask(amount: &Value) -> Option<(&Value, u32)>
    ensures same { IfSome result
        (λ found. (p : Packet) → option_map (λ n. bit_and n found.1) (value (amount_of found.0.now) p) ≡ value (amount_of amount.now) p) }
    ensures fits { IfSome result (λ found. value_cost (amount_of found.0.now) ≤ value_cost (amount_of amount.now)) }
    ensures needs { IfSome result (λ found. value_need (amount_of found.0.now) ≤ value_need (amount_of amount.now)) }
{
    match amount {
        Value::Binary(operator, left, right) => match *operator {
            Operator::BitAnd => {
                let mask = constant(right)?;
                Some((left, mask))
            }
            _ => None,
        },
        _ => None,
    }
}

impl Code {
    /// Emits the test of the Ethernet type, unless it is known.
    fn emit_rest_of_type(&mut self, known: PacketFacts, number: u32, exits: Exits) -> usize
        requires { CanEmit 4 exits self.old }
        ensures { Decides 4 (rest_of_type known number) exits result self.old self.new }
    {
        if known.has_type(number) {
            return exits.yes;
        }
        self.emit_ether_type(number, exits)
    }

    /// Emits what a test for IPv4 with this protocol number needs.
    fn emit_rest_of_protocol(&mut self, known: PacketFacts, number: u32, exits: Exits) -> usize
        requires { CanEmit 8 exits self.old }
        ensures { Decides 8 (rest_of_protocol known number) exits result self.old self.new }
    {
        if known.has_protocol(number) {
            return exits.yes;
        }
        let next = self.emit_protocol_number(number, exits);
        let exits = Exits { yes: next, ..exits };
        self.emit_rest_of_type(known, ETHERTYPE_IP, exits)
    }

    /// Emits what a test for a first fragment of this protocol needs.
    fn emit_rest_of_fragment(&mut self, known: PacketFacts, number: u32, exits: Exits) -> usize
        requires { CanEmit 12 exits self.old }
        ensures { Decides 12 (rest_of_first_fragment known number) exits result self.old self.new }
    {
        if known.has_first_fragment(number) {
            return exits.yes;
        }
        let next = self.emit_fragment_test(exits);
        let exits = Exits { yes: next, ..exits };
        self.emit_rest_of_protocol(known, number, exits)
    }

    /// Emits what the test of a fact needs.
    pub fn emit_rest_of(&mut self, known: PacketFacts, fact: PacketFacts, exits: Exits) -> usize
        requires { CanEmit 12 exits self.old }
        ensures { Decides 12 (rest_of known fact) exits result self.old self.new }
    {
        match fact {
            PacketFacts::Nothing => exits.yes,
            PacketFacts::Type(number) => self.emit_rest_of_type(known, number, exits),
            PacketFacts::Protocol(number) => self.emit_rest_of_protocol(known, number, exits),
            PacketFacts::FirstFragment(number) => self.emit_rest_of_fragment(known, number, exits),
        }
    }

    /// Emits what the tests of the layers of a value's accessors need. A constant has no layers:
    /// what its left operand shows is not looked up, so that the time of a chain of constants does
    /// not grow with the square of its length.
    fn emit_layers(
        &mut self,
        known: PacketFacts,
        value: &Value,
        exits: Exits,
    ) -> Result<usize, Full>
        requires { AreExits self.old exits }
        ensures { Emits (layers_cost (amount_of value.now))
            (rest_of_layers known (amount_of value.now)) exits self.old self.new result }
    {
        match value {
            Value::Number(_) | Value::Length => Ok(exits.yes),
            Value::Negation(operand) => self.emit_layers(known, operand, exits),
            Value::Binary(_, left, right) => {
                if constant(right).is_some() {
                    return self.emit_layers(known, left, exits);
                }
                let next = self.emit_layers(known.after_layers(left), right, exits)?;
                let exits = Exits { yes: next, ..exits };
                self.emit_layers(known, left, exits)
            }
            Value::Accessor(layer, index, _) => {
                let fact = PacketFacts::of_layer(*layer);
                let next = self.emit_layers(known.with_fact(fact), index, exits)?;
                self.room(12)?;
                let exits = Exits { yes: next, ..exits };
                Ok(self.emit_rest_of(known, fact, exits))
            }
        }
    }

    fn emit_comparison(&mut self, comparison: Comparison, operand: Operand, exits: Exits)
        requires { CanEmit 3 exits self.old }
        ensures { Chooses 3 (λ r. compared comparison r.accumulator (value_of operand r)) exits self.old self.new }
    {
        match comparison {
            Comparison::Equal => self.emit_branch(Jump::Equal, operand, exits),
            Comparison::NotEqual => self.emit_branch(Jump::Equal, operand, exits.opposite()),
            Comparison::Less => self.emit_branch(Jump::GreaterOrEqual, operand, exits.opposite()),
            Comparison::Greater => self.emit_branch(Jump::Greater, operand, exits),
            Comparison::LessOrEqual => self.emit_branch(Jump::Greater, operand, exits.opposite()),
            Comparison::GreaterOrEqual => self.emit_branch(Jump::GreaterOrEqual, operand, exits),
        }
    }

    /// Emits the comparison of a field with a constant. An exit that begins with the same load is
    /// entered after it.
    fn emit_field_comparison(
        &mut self,
        comparison: Comparison,
        field: Field,
        n: u32,
        exits: Exits,
    ) -> usize
        requires { CanEmit 4 exits self.old }
        ensures { Decides 4 (λ p. check (λ m. compared comparison m n) (field_of field p)) exits result self.old self.new }
    {
        let load = load_insn(field);
        let exits = self.exits_after(load, exits);
        self.emit_comparison(comparison, Operand::Constant(n), exits);
        self.emit(load);
        self.len()
    }

    /// Emits the test whether a value has any bit of a mask.
    #[tactic(auto, using(crate::proofs::Bounds::value_positive))]
    fn emit_any_bit(&mut self, amount: &Value, mask: u32, exits: Exits) -> Result<usize, Full>
        requires need { value_need (amount_of amount.now) ≤ 16 }
        requires exits { AreExits self.old exits }
        ensures { Emits (3 + value_cost (amount_of amount.now))
            (λ p. check_both (compared NotEqual) (option_map (λ n. bit_and n mask) (value (amount_of amount.now) p)) (Some 0)) exits self.old self.new result }
    {
        self.room(4)?;
        if let Some(field) = field_of(amount) {
            return Ok(self.emit_test(field, Jump::AnyBit, mask, exits));
        }
        self.emit_branch(Jump::AnyBit, Operand::Constant(mask), exits);
        self.emit_value(amount, 0)?;
        Ok(self.len())
    }

    /// Emits a value and its comparison with a number.
    #[tactic(auto, using(crate::proofs::Bounds::value_positive))]
    fn emit_number_comparison(
        &mut self,
        comparison: Comparison,
        amount: &Value,
        n: u32,
        exits: Exits,
    ) -> Result<usize, Full>
        requires need { value_need (amount_of amount.now) ≤ 16 }
        requires exits { AreExits self.old exits }
        ensures { Emits (3 + value_cost (amount_of amount.now))
            (λ p. check_both (compared comparison) (value (amount_of amount.now) p) (Some n)) exits self.old self.new result }
    {
        self.room(4)?;
        if let Some(field) = field_of(amount) {
            return Ok(self.emit_field_comparison(comparison, field, n, exits));
        }
        self.emit_comparison(comparison, Operand::Constant(n), exits);
        self.emit_value(amount, 0)?;
        Ok(self.len())
    }

    /// Emits the comparison of a value with a number. Whether bits under a mask are 0 takes one
    /// jump.
    fn emit_constant_comparison(
        &mut self,
        comparison: Comparison,
        amount: &Value,
        n: u32,
        exits: Exits,
    ) -> Result<usize, Full>
        requires need { value_need (amount_of amount.now) ≤ 16 }
        requires exits { AreExits self.old exits }
        ensures { Emits (3 + value_cost (amount_of amount.now))
            (λ p. check_both (compared comparison) (value (amount_of amount.now) p) (Some n)) exits self.old self.new result }
    {
        match (comparison, split_mask(amount)) {
            (Comparison::Equal, Some((bits, mask))) if n == 0 => {
                self.emit_any_bit(bits, mask, exits.opposite())
            }
            (Comparison::NotEqual, Some((bits, mask))) if n == 0 => {
                self.emit_any_bit(bits, mask, exits)
            }
            _ => self.emit_number_comparison(comparison, amount, n, exits),
        }
    }

    /// Emits two values, the left one first, and their comparison.
    fn emit_value_comparison(
        &mut self,
        comparison: Comparison,
        left: &Value,
        right: &Value,
        exits: Exits,
    ) -> Result<usize, Full>
        requires need { max (value_need (amount_of left.now)) (1 + value_need (amount_of right.now)) ≤ 16 }
        requires exits { AreExits self.old exits }
        ensures { Emits (compare_cost (amount_of left.now) (amount_of right.now))
            (λ p. check_both (compared comparison) (value (amount_of left.now) p) (value (amount_of right.now) p)) exits self.old self.new result }
    {
        self.room(3)?;
        if let Some(n) = constant(right) {
            return self.emit_constant_comparison(comparison, left, n, exits);
        }
        self.emit_comparison(comparison, Operand::Index, exits);
        self.emit_pair(left, right, 0)?;
        Ok(self.len())
    }

    /// Emits a relation: what the tests of its accessors' layers need, then the values and their
    /// comparison.
    pub fn emit_relation(
        &mut self,
        known: PacketFacts,
        comparison: Comparison,
        left: &Value,
        right: &Value,
        exits: Exits,
    ) -> Result<usize, Full>
        requires need { max (value_need (amount_of left.now)) (1 + value_need (amount_of right.now)) ≤ 16 }
        requires exits { AreExits self.old exits }
        ensures { Emits (relation_cost (amount_of left.now) (amount_of right.now))
            (rest_of_relation known comparison (amount_of left.now) (amount_of right.now)) exits self.old self.new result }
    {
        let yes = self.emit_value_comparison(comparison, left, right, exits)?;
        let exits = Exits { yes, ..exits };
        let next = self.emit_layers(known.after_layers(left), right, exits)?;
        let exits = Exits { yes: next, ..exits };
        self.emit_layers(known, left, exits)
    }
}
